// What a node must offer to stand in linked lists: reading and writing its links and its container's ends.
ghost use Rattle.std.specs.Prelude.{◌≡◌, true, ◌⊎◌, ◌≢◌};
ghost use Rattle.linked_list.specs.Links.{View, SetsNext, SetsPrev, SetsWithin, SetsHead, SetsTail};

// A node that stands in a list of its container.
// Kept: a getter and a setter for each link, a rule of the project. A setter writes one link and keeps no list in order, and only
// the edits of this crate call it.
pub trait LinkedList: Copy {
    // The store that holds the links.
    type Store;
    // What a list of these nodes belongs to.
    type ContainerType: Copy;

    // What the store means as links.
    ghost view: { Self.Store → View Self Self.ContainerType };

    // All of the store but these links, which no setter changes.
    ghost Rest: { Type 0 };

    ghost rest: { Self.Store → Rest };

    // Whether the two are one node.
    fn same(a: Self, b: Self) -> bool
        ensures yes { result ≡ true → a ≡ b }
        ensures no { a ≡ b → result ≡ true };

    // The node after `n`, if there is one.
    fn get_next(ctx: &Self::Store, n: Self) -> Option<Self>
        requires { (view ctx.now).live n ≡ true }
        ensures { result ≡ (view ctx.now).next n };

    // The node before `n`, if there is one.
    fn get_prev(ctx: &Self::Store, n: Self) -> Option<Self>
        requires { (view ctx.now).live n ≡ true }
        ensures { result ≡ (view ctx.now).prev n };

    // The container in which `n` stands, if it stands in one.
    fn get_container(ctx: &Self::Store, n: Self) -> Option<Self::ContainerType>
        requires { (view ctx.now).live n ≡ true }
        ensures { result ≡ (view ctx.now).within n };

    // The first node of the container, if it has one.
    fn get_head(ctx: &Self::Store, c: Self::ContainerType) -> Option<Self>
        requires { (view ctx.now).held c ≡ true }
        ensures { result ≡ (view ctx.now).head c };

    // The last node of the container, if it has one.
    fn get_tail(ctx: &Self::Store, c: Self::ContainerType) -> Option<Self>
        requires { (view ctx.now).held c ≡ true }
        ensures { result ≡ (view ctx.now).tail c };

    // Write the node after `n`.
    fn set_next(ctx: &mut Self::Store, n: Self, x: Option<Self>)
        requires { (view ctx.old).live n ≡ true }
        ensures sets { SetsNext (view ctx.old) (view ctx.new) n x }
        ensures rest { rest ctx.new ≡ rest ctx.old };

    // Write the node before `n`.
    fn set_prev(ctx: &mut Self::Store, n: Self, x: Option<Self>)
        requires { (view ctx.old).live n ≡ true }
        ensures sets { SetsPrev (view ctx.old) (view ctx.new) n x }
        ensures rest { rest ctx.new ≡ rest ctx.old };

    // Write the container of `n`.
    fn set_container(ctx: &mut Self::Store, n: Self, x: Option<Self::ContainerType>)
        requires { (view ctx.old).live n ≡ true }
        ensures sets { SetsWithin (view ctx.old) (view ctx.new) n x }
        ensures rest { rest ctx.new ≡ rest ctx.old };

    // Write the first node of the container.
    fn set_head(ctx: &mut Self::Store, c: Self::ContainerType, x: Option<Self>)
        requires { (view ctx.old).held c ≡ true }
        ensures sets { SetsHead (view ctx.old) (view ctx.new) c x }
        ensures rest { rest ctx.new ≡ rest ctx.old };

    // Write the last node of the container.
    fn set_tail(ctx: &mut Self::Store, c: Self::ContainerType, x: Option<Self>)
        requires { (view ctx.old).held c ≡ true }
        ensures sets { SetsTail (view ctx.old) (view ctx.new) c x }
        ensures rest { rest ctx.new ≡ rest ctx.old };

    // Two nodes are the same or not.
    ghost nodes: { (a b : Self) → (a ≡ b) ⊎ (a ≢ b) };

    // Two containers are the same or not.
    ghost containers: { (a b : Self.ContainerType) → (a ≡ b) ⊎ (a ≢ b) };
}
