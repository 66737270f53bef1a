// What a byte of a text is.
ghost use Rattle.std.specs.Prelude.{◌≡◌};
ghost use Rattle.hexadecimal.specs.Classes.{class_of, Valued};

// The class of a byte.
#[derive(Clone, Copy, Drop)]
pub(crate) enum Class {
    // White space or a comma, which parts pairs of digits.
    Parting,
    // The start of a comment.
    Hash,
    // A digit, with its value.
    Digit(u8),
    // Any other byte.
    Other,
}

// Tells the class of a byte.
pub(crate) fn classify(byte: u8) -> Class
    ensures value { result ≡ class_of byte }
    ensures small { Valued result }
{
    match byte {
        b' ' | b'\t' | b'\r' | b'\n' | b',' => Class::Parting,
        b'#' => Class::Hash,
        b'0'..=b'9' => Class::Digit(byte - b'0'),
        b'A'..=b'F' => Class::Digit(byte - b'A' + 10),
        b'a'..=b'f' => Class::Digit(byte - b'a' + 10),
        _ => Class::Other,
    }
}
