// How nodes get their numbers, and how a session starts.
ghost use Rattle.std.specs.Prelude.{◌≡◌, ◌+◌, ◌<◌, ◌≤◌, [], ◌∷◌, ◌++◌, length, IfOk, vec_len, MatchBool, slice_index, slice_set};
ghost use Rattle.std.specs.List.{slice_get};
ghost use Rattle.std.specs.Option.{ok_or};
ghost use Rattle.arrayvec.specs.ArrayVec.{array_vec_len};
ghost use Rattle.result.specs.declared.refusal.Refusal.TheVariants.{BadOrdinal};
ghost use Rattle.script.specs.Makes.{PastLast};
ghost use Rattle.script.specs.Numbers.{Numbered};
ghost use Rattle.script.specs.Sessions.{Started};

use crate::node::Nodes;
use crate::node_ptr::NodePtr;
use crate::numbers::Numbers;
use crate::session::Session;
use crate::state::State;
use ir::Context;
use result::Refusal;
use std::alloc::{AllocError, Global};

// How many nodes of one kind get numbers.
const MOST: usize = 512;

impl<T> Numbers<T> {
    // No node is numbered yet.
    pub(crate) fn new(heap: Global) -> Result<Numbers<T>, AllocError>
        ensures { IfOk result (λ n. n.handles.items ≡ []) }
    {
        let latest = vec![in heap; 0u16; MOST]?;
        let handles = Vec::with_capacity(heap, MOST)?;
        Ok(Numbers { handles, latest })
    }

    // Whether there are numbers for so many nodes more.
    fn has(&self, more: usize) -> bool
        ensures { MatchBool result (vec_len self.now.handles + more ≤ 512) (512 < vec_len self.now.handles + more) }
    {
        more <= MOST - self.handles.len()
    }
}

impl<T: Copy> Numbers<T> {
    // The node that has a number, if the number was given.
    pub(crate) fn get(&self, number: u16) -> Result<T, Refusal>
        ensures { result ≡ ok_or (slice_get self.now.handles.items number) BadOrdinal }
    {
        let handle = self.handles.get(usize::from(number)).copied();
        handle.ok_or(Refusal::BadOrdinal)
    }
}

impl<T: NodePtr> Numbers<T> {
    // Gives the next number to a node.
    fn give(&mut self, handle: T) -> u16
        requires { vec_len self.old.handles < 512 }
        ensures value { result ≡ vec_len self.old.handles }
        ensures items { self.new.handles.items ≡ self.old.handles.items ++ handle ∷ [] }
        ensures len { vec_len self.new.handles ≡ vec_len self.old.handles + 1 }
        ensures latest { self.new.latest.items ≡ slice_set self.old.latest.items (T.place_of handle) result }
    {
        let number = self.handles.len() as u16;
        self.handles.push_reserved(handle);
        if let Some(latest) = self.latest.get_mut(handle.place()) {
            *latest = number;
        }
        number
    }

    // The number given last to a node at the place of a handle.
    pub(crate) fn number_of(&self, handle: T) -> u16
        ensures { result ≡ slice_index self.now.latest.items (T.place_of handle) }
    {
        self.latest.get(handle.place()).copied().unwrap_or(0)
    }

    // Gives the next numbers to nodes, in order, and lists each behind those that are listed.
    pub(crate) fn number(&mut self, made: &[T], nodes: &mut Nodes)
        requires few { vec_len self.old.handles + length made.now ≤ 512 }
        requires room { array_vec_len nodes.old + length made.now ≤ 1024 }
        ensures { Numbered T.node T.place_of made.now self.old self.new nodes.old.items nodes.new.items }
    {
        'each: for handle in made {
            let number = self.give(*handle);
            nodes.push(T::node(number));
        }
    }
}

impl Session {
    // A session with a fresh store, in which no node is numbered yet. All memory that it ever needs is taken here.
    pub fn new(heap: Global) -> Result<Session, AllocError>
        ensures { IfOk result (λ s. Started s.state) }
    {
        let state = State::new(heap)?;
        let nodes = Nodes::new();
        Ok(Session { state, nodes })
    }
}

impl State {
    // A fresh store, in which no node is numbered yet.
    fn new(heap: Global) -> Result<State, AllocError>
        ensures { IfOk result Started }
    {
        let context = Context::new(heap)?;
        let operations = Numbers::new(heap)?;
        let blocks = Numbers::new(heap)?;
        let regions = Numbers::new(heap)?;
        Ok(State {
            context,
            operations,
            blocks,
            regions,
        })
    }

    // Whether there are numbers for so many nodes more of each kind.
    pub(crate) fn has_numbers(&self, operations: usize, blocks: usize, regions: usize) -> bool
        ensures { MatchBool result (PastLast self.now operations blocks regions → ⊥) (PastLast self.now operations blocks regions) }
    {
        self.operations.has(operations) && self.blocks.has(blocks) && self.regions.has(regions)
    }
}
