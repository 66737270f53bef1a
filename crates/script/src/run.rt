// Runs one field.
// Kept: a field's value and the list of what it shows are lent side by side, see `Nodes`.
ghost use Rattle.script.specs.Runs.{answer_of, TagRun, ByteRun};

use crate::node::{Close, Nodes};
use crate::state::State;
use crate::tag::Tag;
use result::Refusal;

impl State {
    // Runs the field that has this byte as its tag, and lists the nodes to show.
    #[tactic(auto, unfolding(crate::specs::Runs::ByteRun))]
    pub(crate) fn run(
        &mut self,
        byte: u8,
        value: &[u8],
        nodes: &mut Nodes,
    ) -> Result<Close, Refusal>
        ensures { ByteRun self.old byte value.now (answer_of nodes.new.items result) self.new }
    {
        self.run_tag(Tag::try_from(byte)?, value, nodes)
    }

    // Each tag has a method of its own.
    // Kept: a match, since the tags are a closed list, of which the check sees that none is forgotten.
    fn run_tag(&mut self, tag: Tag, value: &[u8], nodes: &mut Nodes) -> Result<Close, Refusal>
        ensures { TagRun self.old tag value.now (answer_of nodes.new.items result) self.new }
    {
        match tag {
            Tag::MakeOperation => self.run_make_operation(value, nodes),
            Tag::MakeBlock => self.run_make_block(value, nodes),
            Tag::LinkOperation => self.run_link_operation(value, nodes),
            Tag::LinkBlock => self.run_link_block(value, nodes),
            Tag::UnlinkOperation => self.run_unlink_operation(value, nodes),
            Tag::UnlinkBlock => self.run_unlink_block(value, nodes),
            Tag::InsertSymbol => self.run_insert_symbol(value, nodes),
            Tag::RemoveSymbol => self.run_remove_symbol(value, nodes),
            Tag::EraseSymbol => self.run_erase_symbol(value, nodes),
            Tag::EraseOperation => self.run_erase_operation(value, nodes),
            Tag::EraseBlock => self.run_erase_block(value, nodes),
            Tag::Lookup => self.run_lookup(value, nodes),
            Tag::NearestLookup => self.run_nearest_lookup(value, nodes),
            Tag::Walk => self.run_walk(value, nodes),
            Tag::TableWalk => self.run_table_walk(value, nodes),
        }
    }
}
