// What a field that walks asks for: its value's parts, as numbers and as handles.
ghost use Rattle.std.specs.Prelude.{◌≡◌, ◌+◌, ◌*◌, ◌<◌, Some, MatchResult};
ghost use Rattle.std.specs.List.{slice_get};
ghost use Rattle.std.specs.Option.{ok_or, option_zip};
ghost use Rattle.result.specs.declared.refusal.Refusal.TheVariants.{BadField, BadOrdinal};
ghost use Rattle.script.specs.Walks.{NoWalk, config_asked, kinds, maybe_given, node_asked, node_given, pair_of, steering_given};

use crate::node::Node;
use crate::state::State;
use crate::steering::Steering;
use records::IRNode;
use result::Refusal;
use walkers::{Direction, Order, WalkConfig};

// Where a walk starts, how it goes, and at which nodes it is answered Skip and Break: by their numbers.
#[derive(Clone, Copy, Drop)]
pub(crate) struct WalkField {
    root: Node,
    pub(crate) config: WalkConfig,
    skip: Option<Node>,
    end: Option<Node>,
}

// The node of a kind that has a number, where the byte is that of a kind.
fn node(kind: u8, high: u8, low: u8) -> Option<Node>
    ensures { result ≡ slice_get (kinds (high * 256 + low)) kind }
{
    let number = u16::from_be_bytes([high, low]);
    match kind {
        0 => Some(Node::Operation(number)),
        1 => Some(Node::Block(number)),
        2 => Some(Node::Region(number)),
        _ => None,
    }
}

// The order and the direction that two bits give.
fn pair(bits: u8) -> (Order, Direction)
    requires { bits < 4 }
    ensures { result ≡ pair_of bits }
{
    match bits {
        0 => (Order::PreOrder, Direction::Forward),
        1 => (Order::PostOrder, Direction::Forward),
        2 => (Order::PreOrder, Direction::Reverse),
        _ => (Order::PostOrder, Direction::Reverse),
    }
}

impl WalkField {
    // The parts of a value: a node, a byte with the configuration, and two nodes that may be none.
    pub(crate) fn read(value: &[u8]) -> Result<WalkField, Refusal>
        ensures { MatchResult result
            (λ w. (NoWalk value.now → ⊥) × (node_asked value.now 0 ≡ Some w.root) × (w.config ≡ config_asked value.now) × (w.skip ≡ node_asked value.now 4) × (w.end ≡ node_asked value.now 7))
            (λ e. NoWalk value.now × (e ≡ BadField)) }
    {
        let [
            kind,
            high,
            low,
            config,
            skip,
            skip_high,
            skip_low,
            end,
            end_high,
            end_low,
        ] = value
        else {
            return Err(Refusal::BadField);
        };
        if *config > 63 || *skip > 3 || *end > 3 {
            return Err(Refusal::BadField);
        }
        let Some(root) = node(*kind, *high, *low) else {
            return Err(Refusal::BadField);
        };
        Ok(WalkField {
            root,
            config: WalkConfig {
                regions_in_op: pair(*config % 4),
                ops_in_block: pair(*config / 4 % 4),
                blocks_in_region: pair(*config / 16),
            },
            skip: node(*skip, *skip_high, *skip_low),
            end: node(*end, *end_high, *end_low),
        })
    }

    // The nodes that have these numbers.
    pub(crate) fn find(self, state: &State) -> Result<(IRNode, Steering), Refusal>
        ensures { result ≡ ok_or (option_zip (node_given state.now self.root) (steering_given state.now self.skip self.end)) BadOrdinal }
    {
        let root = state.find(self.root)?;
        let skip = state.find_any(self.skip)?;
        let end = state.find_any(self.end)?;
        Ok((root, Steering { skip, end }))
    }
}

impl State {
    // The node of a kind that has a number.
    fn find(&self, node: Node) -> Result<IRNode, Refusal>
        ensures { result ≡ ok_or (node_given self.now node) BadOrdinal }
    {
        Ok(match node {
            Node::Operation(number) => IRNode::Operation(self.operations.get(number)?),
            Node::Block(number) => IRNode::BasicBlock(self.blocks.get(number)?),
            Node::Region(number) => IRNode::Region(self.regions.get(number)?),
        })
    }

    // The same of a node that may be none.
    fn find_any(&self, node: Option<Node>) -> Result<Option<IRNode>, Refusal>
        ensures { result ≡ ok_or (maybe_given self.now node) BadOrdinal }
    {
        match node {
            Some(node) => Ok(Some(self.find(node)?)),
            None => Ok(None),
        }
    }
}
