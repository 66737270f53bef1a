// The session of a script.
use crate::node::Nodes;
use crate::state::State;

// What a script has made so far, and the list that a field's nodes are put into. The list holds no more than the last line showed;
// it stands here, so that no line pays for making it.
#[derive(Drop)]
pub struct Session {
    pub(crate) state: State,
    pub(crate) nodes: Nodes,
}
