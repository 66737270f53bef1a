// The class of a byte, from one constant table. What a name may have is the table's rule, proved over all bytes.
ghost use Rattle.std.specs.Prelude.{◌≡◌};
ghost use Rattle.identifier.specs.Names.{class_of, starts, continues};

use Class::{Head, Stop, Tail};

// Where a byte may stand in a name.
#[derive(Clone, Copy)]
enum Class {
    // Nowhere: a name stops before it.
    Stop,
    // Anywhere, also at its head.
    Head,
    // In its tail alone, after the first byte.
    Tail,
}

// The class of each of the 256 bytes, 16 to a row.
static CLASSES: [Class; 256] = [
    Stop, Stop, Stop, Stop, Stop, Stop, Stop, Stop, Stop, Stop, Stop, Stop, Stop, Stop, Stop, Stop,
    Stop, Stop, Stop, Stop, Stop, Stop, Stop, Stop, Stop, Stop, Stop, Stop, Stop, Stop, Stop, Stop,
    Stop, Stop, Stop, Stop, Stop, Stop, Stop, Stop, Stop, Stop, Stop, Stop, Stop, Stop, Stop, Stop,
    Tail, Tail, Tail, Tail, Tail, Tail, Tail, Tail, Tail, Tail, Stop, Stop, Stop, Stop, Stop, Stop,
    Stop, Head, Head, Head, Head, Head, Head, Head, Head, Head, Head, Head, Head, Head, Head, Head,
    Head, Head, Head, Head, Head, Head, Head, Head, Head, Head, Head, Stop, Stop, Stop, Stop, Head,
    Stop, Head, Head, Head, Head, Head, Head, Head, Head, Head, Head, Head, Head, Head, Head, Head,
    Head, Head, Head, Head, Head, Head, Head, Head, Head, Head, Head, Stop, Stop, Stop, Stop, Stop,
    Stop, Stop, Stop, Stop, Stop, Stop, Stop, Stop, Stop, Stop, Stop, Stop, Stop, Stop, Stop, Stop,
    Stop, Stop, Stop, Stop, Stop, Stop, Stop, Stop, Stop, Stop, Stop, Stop, Stop, Stop, Stop, Stop,
    Stop, Stop, Stop, Stop, Stop, Stop, Stop, Stop, Stop, Stop, Stop, Stop, Stop, Stop, Stop, Stop,
    Stop, Stop, Stop, Stop, Stop, Stop, Stop, Stop, Stop, Stop, Stop, Stop, Stop, Stop, Stop, Stop,
    Stop, Stop, Stop, Stop, Stop, Stop, Stop, Stop, Stop, Stop, Stop, Stop, Stop, Stop, Stop, Stop,
    Stop, Stop, Stop, Stop, Stop, Stop, Stop, Stop, Stop, Stop, Stop, Stop, Stop, Stop, Stop, Stop,
    Stop, Stop, Stop, Stop, Stop, Stop, Stop, Stop, Stop, Stop, Stop, Stop, Stop, Stop, Stop, Stop,
    Stop, Stop, Stop, Stop, Stop, Stop, Stop, Stop, Stop, Stop, Stop, Stop, Stop, Stop, Stop, Stop,
];

// The class of a byte.
fn class_of(b: u8) -> Class
    ensures { result ≡ class_of b }
{
    CLASSES[b as usize]
}

// A name may begin with this byte.
pub fn is_start(b: u8) -> bool
    ensures { result ≡ starts b }
{
    matches!(class_of(b), Head)
}

// A name may go on with this byte.
pub fn is_continue(b: u8) -> bool
    ensures { result ≡ continues b }
{
    matches!(class_of(b), Head | Tail)
}
