// Walks from one root, again and again.
use super::counter::Counter;
use ir::{Context, IRNode, OpPtr};
use walkers::interruptible::immutable::walk_op;
use walkers::{WALKCONFIG_PREORDER_FORWARD, Walk, WalkResult};

// How often the root is walked.
const TIMES: u32 = 10_000;

// How many nodes a visitor is shown in all.
pub fn shown_by_walk_op(context: &Context, root: OpPtr) -> u64 {
    let mut counter = Counter { shown: 0 };
    for _ in 0..TIMES {
        let _ = walk_op(context, WALKCONFIG_PREORDER_FORWARD, root, &mut counter);
    }
    counter.shown
}

// How many nodes a walk gives that is held; none where its root is dead.
fn given(context: &Context, root: OpPtr) -> u64 {
    let Ok(mut walk) = Walk::new(
        context,
        WALKCONFIG_PREORDER_FORWARD,
        IRNode::Operation(root),
    ) else {
        return 0;
    };
    let mut count = 0u64;
    let answer: WalkResult<()> = WalkResult::Advance;
    'walk: while walk.step(&answer).is_some() {
        count = count.wrapping_add(1);
    }
    count
}

// How many nodes such walks give in all.
pub fn given_by_held_walks(context: &Context, root: OpPtr) -> u64 {
    let mut count = 0u64;
    for _ in 0..TIMES {
        count = count.wrapping_add(given(context, root));
    }
    count
}
