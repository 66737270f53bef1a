// The links of operations in blocks and of blocks in regions. The setters serve the list code alone.
// Kept: each link has a getter and a setter for each kind of node, a rule of the project: a setter changes one link, and the kinds
// never meet. That setters have no clauses but their trait's was tried: the check can't hand those to a method that takes an
// associated type by `&mut`.
ghost use Rattle.std.specs.Prelude.{◌≡◌, true};
ghost use Rattle.linked_list.specs.Links.{SetsHead, SetsNext, SetsPrev, SetsTail, SetsWithin};
ghost use Rattle.records.specs.Models.{Model};
ghost use Rattle.records.specs.Views.{block_rest, block_view, op_rest, op_view};
ghost use Rattle.records.specs.Writes.{block_same, op_same, region_same};

use crate::handles::{BlockPtr, OpPtr, RegionPtr};
use crate::records::Records;
use linked_list::LinkedList;

impl LinkedList for OpPtr {
    type Store = Records;

    type ContainerType = BlockPtr;

    ghost view = { op_view };

    ghost Rest = { Model };

    ghost rest = { op_rest };

    ghost nodes = { λ a b. op_same a b };

    ghost containers = { λ a b. block_same a b };

    fn same(a: OpPtr, b: OpPtr) -> bool {
        a == b
    }

    fn get_next(ctx: &Records, n: OpPtr) -> Option<OpPtr> {
        ctx.operations.record(n.handle).next
    }

    fn set_next(ctx: &mut Records, n: OpPtr, x: Option<OpPtr>)
        requires { (op_view ctx.old).live n ≡ true }
        ensures sets { SetsNext (op_view ctx.old) (op_view ctx.new) n x }
        ensures rest { op_rest ctx.new ≡ op_rest ctx.old }
    {
        ctx.operations.record_mut(n.handle).next = x;
    }

    fn get_prev(ctx: &Records, n: OpPtr) -> Option<OpPtr> {
        ctx.operations.record(n.handle).prev
    }

    fn set_prev(ctx: &mut Records, n: OpPtr, x: Option<OpPtr>)
        requires { (op_view ctx.old).live n ≡ true }
        ensures sets { SetsPrev (op_view ctx.old) (op_view ctx.new) n x }
        ensures rest { op_rest ctx.new ≡ op_rest ctx.old }
    {
        ctx.operations.record_mut(n.handle).prev = x;
    }

    fn get_container(ctx: &Records, n: OpPtr) -> Option<BlockPtr> {
        ctx.operations.record(n.handle).container
    }

    fn set_container(ctx: &mut Records, n: OpPtr, x: Option<BlockPtr>)
        requires { (op_view ctx.old).live n ≡ true }
        ensures sets { SetsWithin (op_view ctx.old) (op_view ctx.new) n x }
        ensures rest { op_rest ctx.new ≡ op_rest ctx.old }
    {
        ctx.operations.record_mut(n.handle).container = x;
    }

    fn get_head(ctx: &Records, c: BlockPtr) -> Option<OpPtr> {
        ctx.blocks.record(c.handle).head
    }

    fn set_head(ctx: &mut Records, c: BlockPtr, x: Option<OpPtr>)
        requires { (op_view ctx.old).held c ≡ true }
        ensures sets { SetsHead (op_view ctx.old) (op_view ctx.new) c x }
        ensures rest { op_rest ctx.new ≡ op_rest ctx.old }
    {
        ctx.blocks.record_mut(c.handle).head = x;
    }

    fn get_tail(ctx: &Records, c: BlockPtr) -> Option<OpPtr> {
        ctx.blocks.record(c.handle).tail
    }

    fn set_tail(ctx: &mut Records, c: BlockPtr, x: Option<OpPtr>)
        requires { (op_view ctx.old).held c ≡ true }
        ensures sets { SetsTail (op_view ctx.old) (op_view ctx.new) c x }
        ensures rest { op_rest ctx.new ≡ op_rest ctx.old }
    {
        ctx.blocks.record_mut(c.handle).tail = x;
    }
}

impl LinkedList for BlockPtr {
    type Store = Records;

    type ContainerType = RegionPtr;

    ghost view = { block_view };

    ghost Rest = { Model };

    ghost rest = { block_rest };

    ghost nodes = { λ a b. block_same a b };

    ghost containers = { λ a b. region_same a b };

    fn same(a: BlockPtr, b: BlockPtr) -> bool {
        a == b
    }

    fn get_next(ctx: &Records, n: BlockPtr) -> Option<BlockPtr> {
        ctx.blocks.record(n.handle).next
    }

    fn set_next(ctx: &mut Records, n: BlockPtr, x: Option<BlockPtr>)
        requires { (block_view ctx.old).live n ≡ true }
        ensures sets { SetsNext (block_view ctx.old) (block_view ctx.new) n x }
        ensures rest { block_rest ctx.new ≡ block_rest ctx.old }
    {
        ctx.blocks.record_mut(n.handle).next = x;
    }

    fn get_prev(ctx: &Records, n: BlockPtr) -> Option<BlockPtr> {
        ctx.blocks.record(n.handle).prev
    }

    fn set_prev(ctx: &mut Records, n: BlockPtr, x: Option<BlockPtr>)
        requires { (block_view ctx.old).live n ≡ true }
        ensures sets { SetsPrev (block_view ctx.old) (block_view ctx.new) n x }
        ensures rest { block_rest ctx.new ≡ block_rest ctx.old }
    {
        ctx.blocks.record_mut(n.handle).prev = x;
    }

    fn get_container(ctx: &Records, n: BlockPtr) -> Option<RegionPtr> {
        ctx.blocks.record(n.handle).container
    }

    fn set_container(ctx: &mut Records, n: BlockPtr, x: Option<RegionPtr>)
        requires { (block_view ctx.old).live n ≡ true }
        ensures sets { SetsWithin (block_view ctx.old) (block_view ctx.new) n x }
        ensures rest { block_rest ctx.new ≡ block_rest ctx.old }
    {
        ctx.blocks.record_mut(n.handle).container = x;
    }

    fn get_head(ctx: &Records, c: RegionPtr) -> Option<BlockPtr> {
        ctx.regions.record(c.handle).head
    }

    fn set_head(ctx: &mut Records, c: RegionPtr, x: Option<BlockPtr>)
        requires { (block_view ctx.old).held c ≡ true }
        ensures sets { SetsHead (block_view ctx.old) (block_view ctx.new) c x }
        ensures rest { block_rest ctx.new ≡ block_rest ctx.old }
    {
        ctx.regions.record_mut(c.handle).head = x;
    }

    fn get_tail(ctx: &Records, c: RegionPtr) -> Option<BlockPtr> {
        ctx.regions.record(c.handle).tail
    }

    fn set_tail(ctx: &mut Records, c: RegionPtr, x: Option<BlockPtr>)
        requires { (block_view ctx.old).held c ≡ true }
        ensures sets { SetsTail (block_view ctx.old) (block_view ctx.new) c x }
        ensures rest { block_rest ctx.new ≡ block_rest ctx.old }
    {
        ctx.regions.record_mut(c.handle).tail = x;
    }
}
