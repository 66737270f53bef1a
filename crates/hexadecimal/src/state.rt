// Where the reader of a text is.

// The state of the reader.
#[derive(Clone, Copy, Drop)]
pub(crate) enum State {
    // Between pairs of digits.
    Between,
    // In a comment, which ends with its line.
    Comment,
    // After the first digit of a pair, which stands at this place.
    Half { high: u8, place: usize },
}

// What one byte of the text leads to: the next state, and the byte that is decoded, if it ends a pair.
#[derive(Clone, Copy, Drop)]
pub(crate) struct Step {
    pub(crate) next: State,
    pub(crate) byte: Option<u8>,
}
