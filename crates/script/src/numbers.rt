// The numbered nodes of one kind.
ghost use Rattle.std.specs.Prelude.{◌≡◌, ◌≤◌, vec_len, vec_capacity};

// The handles of the nodes of one kind: each has its place in the list as its number, from 0 to 511. The memory for all of
// them is taken at the start, so that numbering never fails for want of it.
#[derive(Drop)]
pub(crate) struct Numbers<T> {
    pub(crate) handles: Vec<T>,
    // By the place of a handle: the number given last to a node there.
    pub(crate) latest: Vec<u16>,
    ghost few: { vec_len handles ≤ 512 },
    ghost room: { 512 ≤ vec_capacity handles },
    ghost each_place: { vec_len latest ≡ 512 },
}
