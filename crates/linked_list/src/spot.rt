// Where in a list a node is put.

// As the first or the last of a container, or right before or after a mark, which is a node of the list.
#[derive(Clone, Copy)]
pub enum Spot<N, C> {
    AtFront(C),
    AtBack(C),
    Before(N),
    After(N),
}
