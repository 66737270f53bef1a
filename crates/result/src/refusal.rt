// Why a call is refused: one case for each row, in the order in which rows are tested, and the row's number.
ghost use Rattle.std.specs.Prelude.{◌≡◌, Decides, Some, nat_eq};
ghost use Rattle.std.specs.Ordering.{on};
ghost use Rattle.result.specs.Refusals.{number, name, DistinctNumbers, EqDecides};
ghost use Rattle.result.specs.declared.refusal.Refusal.{Refusal};

use std::fmt;

// The refusals. Where several fit, the one that stands first here is given.
#[derive(Clone, Copy, PartialEq, Eq, Debug, Drop)]
pub enum Refusal {
    // A script over its limit, a place past its end, or too little room for output.
    Bounds = 20,
    // A field runs past the script's end.
    ScriptCut = 21,
    // A tag that is not listed.
    UnknownTag = 22,
    // A value of the wrong length, or a code in it that is not listed.
    BadField = 23,
    // A node number that was not given yet.
    BadOrdinal = 24,
    // No number is left for a node to be made.
    NumberingFull = 25,
    // The handle's record is not live with that version.
    Dangling = 1,
    // A table is wanted.
    NotATable = 2,
    // A symbol is wanted.
    NotASymbol = 3,
    // No operation has this kind, these regions and this name together.
    BadShape = 4,
    // The name has over 32 bytes.
    NameTooLong = 5,
    // The bytes are no valid name.
    MalformedIdentifier = 6,
    // A new name where all that can be held are held.
    NamesFull = 7,
    // Too few free records.
    RecordsFull = 8,
    // The name is in this table already.
    SymbolRedefined = 9,
    // It has a parent operation other than this table.
    SymbolOpAlreadyInAnotherTable = 10,
    // The point is unset, or beside an operation in no block.
    InvalidInsertionPoint = 11,
    // The point's block is not this table's body.
    InsertionPointNotInSameTable = 12,
    // The parent operation of what is to be removed is not this table.
    SymbolOpNotInTableOp = 13,
    // The node to link has a container.
    AlreadyLinked = 14,
    // The mark has no container.
    MarkNotLinked = 15,
    // The node to unlink has no container.
    NotLinked = 16,
    // A block would enter or leave a table's region.
    FixedBody = 17,
    // The target lies inside the node to link.
    WouldContainItself = 18,
    // A symbol would enter or leave a table's body other than through the table.
    GoesThroughTable = 19,
}

impl Refusal {
    // The number by which a printed line tells this refusal.
    // Kept: a method beside `as u8`, since the rules speak of a refusal's number, and `u8::from(refusal)` is no plainer.
    pub fn number(self) -> u8
        ensures { result ≡ number self }
    {
        self as u8
    }

    // The name under which this refusal is printed.
    pub fn name(self) -> &'static str
        ensures { result.now ≡ name self }
    {
        match self {
            Refusal::Bounds => "Bounds",
            Refusal::ScriptCut => "ScriptCut",
            Refusal::UnknownTag => "UnknownTag",
            Refusal::BadField => "BadField",
            Refusal::BadOrdinal => "BadOrdinal",
            Refusal::NumberingFull => "NumberingFull",
            Refusal::Dangling => "Dangling",
            Refusal::NotATable => "NotATable",
            Refusal::NotASymbol => "NotASymbol",
            Refusal::BadShape => "BadShape",
            Refusal::NameTooLong => "NameTooLong",
            Refusal::MalformedIdentifier => "MalformedIdentifier",
            Refusal::NamesFull => "NamesFull",
            Refusal::RecordsFull => "RecordsFull",
            Refusal::SymbolRedefined => "SymbolRedefined",
            Refusal::SymbolOpAlreadyInAnotherTable => "SymbolOpAlreadyInAnotherTable",
            Refusal::InvalidInsertionPoint => "InvalidInsertionPoint",
            Refusal::InsertionPointNotInSameTable => "InsertionPointNotInSameTable",
            Refusal::SymbolOpNotInTableOp => "SymbolOpNotInTableOp",
            Refusal::AlreadyLinked => "AlreadyLinked",
            Refusal::MarkNotLinked => "MarkNotLinked",
            Refusal::NotLinked => "NotLinked",
            Refusal::FixedBody => "FixedBody",
            Refusal::WouldContainItself => "WouldContainItself",
            Refusal::GoesThroughTable => "GoesThroughTable",
        }
    }
}

impl fmt::Display for Refusal {
    ghost output = { λ r. Some (name r) };

    fn fmt<W: fmt::Write>(&self, f: &mut fmt::Formatter<W>) -> fmt::Result {
        f.write_str(self.name())
    }
}

// No two refusals have one number.
#[tactic(auto, using(crate::proofs::Numbers::distinct))]
pub fn numbers_are_distinct()
    ensures { DistinctNumbers }
{}

// What `==` answers tells whether two refusals are one: it answers as their numbers do.
pub fn eq_decides()
    ensures decides { (a b : Refusal) → Decides (⟦<Refusal as PartialEq>⟧.eq a b) (a ≡ b) }
    ensures numbers { (a b : Refusal) → ⟦<Refusal as PartialEq>⟧.eq a b ≡ on number nat_eq a b }
    ensures of_numbers { EqDecides }
{}
