// What a field asks for.
ghost use Rattle.script.specs.Tags.{TagGiven};

use result::Refusal;

// The tags, with their bytes.
#[derive(Clone, Copy, Drop)]
pub(crate) enum Tag {
    MakeOperation = 1,
    MakeBlock = 2,
    LinkOperation = 3,
    LinkBlock = 4,
    UnlinkOperation = 5,
    UnlinkBlock = 6,
    InsertSymbol = 7,
    RemoveSymbol = 8,
    EraseSymbol = 9,
    EraseOperation = 10,
    EraseBlock = 11,
    Lookup = 12,
    NearestLookup = 13,
    Walk = 14,
    TableWalk = 15,
}

impl TryFrom<u8> for Tag {
    type Error = Refusal;

    ghost try_from_gives = { TagGiven };

    fn try_from(byte: u8) -> Result<Tag, Refusal> {
        match byte {
            1 => Ok(Tag::MakeOperation),
            2 => Ok(Tag::MakeBlock),
            3 => Ok(Tag::LinkOperation),
            4 => Ok(Tag::LinkBlock),
            5 => Ok(Tag::UnlinkOperation),
            6 => Ok(Tag::UnlinkBlock),
            7 => Ok(Tag::InsertSymbol),
            8 => Ok(Tag::RemoveSymbol),
            9 => Ok(Tag::EraseSymbol),
            10 => Ok(Tag::EraseOperation),
            11 => Ok(Tag::EraseBlock),
            12 => Ok(Tag::Lookup),
            13 => Ok(Tag::NearestLookup),
            14 => Ok(Tag::Walk),
            15 => Ok(Tag::TableWalk),
            _ => Err(Refusal::UnknownTag),
        }
    }
}
