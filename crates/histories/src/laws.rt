// The law of the store, a theorem: a function whose contract it is.
ghost use Rattle.histories.specs.Law.{Law};

use walkers::{Visitor, VisitorMut};

// There is a store that was just built. Take any such store, and any calls on it, one after another, denied or not: nodes are made,
// linked, unlinked and erased, symbols are put into tables, taken out and erased, names are looked up, notes are set, and visitors walk.
// Meanwhile an onlooker keeps a ledger from the arguments of the calls and their answers alone: the live nodes, each with its children in
// order, and of an operation its kind and its name. Then after every one of these calls, whatever came before it:
// - the live nodes of the store, their children, and the kinds and names of its operations are those of the ledger;
// - a call is denied exactly where a row of its refusals fits the ledger, and by the uppermost that does (RecordsFull and NamesFull fit
//   the store, which counts records and names, as the ledger does not); a call that is denied, and one that only reads, changes nothing,
//   and what is made was not there before;
// - kinds, names, regions, parents and children are read as they are written down;
// - a walk from a live node, for every configuration and every visitor of a type R that reads or a type V that writes notes, shows the
//   node and all that lies below it in the configuration's order, less what the visitor's answers hide, up to the first that ends it; so
//   does a walk that is held and goes on step by step; and the walk of a table shows its operations, but no nested table or what lies
//   below one. Where no answer hides or ends, each node is shown once, and the mirrored configuration has every order from its end;
// - every table has its one body; a name that is looked up in a live table gives an operation exactly when that stands in the body under
//   the name, and so it is through the table that is nearest to an operation; and no body holds two operations of one name.
// docs/LAW.md tells of it line by line.
pub fn every_history_is_right<R: Visitor, V: VisitorMut>()
    ensures { Law R.answer R.next V.answer V.next V.notes }
{}
