// Prints lines.
ghost use Rattle.std.specs.Prelude.{◌≡◌, ◌+◌, ◌*◌, ◌≤◌, ◌∷◌, map, length, codes, decimal};
ghost use Rattle.script.specs.Prints.{node_word, close_words, spaced, Lined, refused, done};
ghost use Rattle.script.specs.Printers.{Prints, HasRoom};

use crate::node::{Close, Node};
use itoa::Buffer;
use result::Refusal;

// The line that is being printed at the start of a lent buffer, and where its next word goes.
// Kept: words are put by methods and not by `Display` and `write!`, since by a rule of the project the line call does not fail, and what
// `write!` promises allows an error.
#[derive(Drop)]
struct Printer<'a> {
    out: &'a mut [u8],
    at: usize,
}

impl<'a> Printer<'a> {
    // Nothing is printed yet.
    fn new(out: &'a mut [u8]) -> Printer<'a>
        ensures same_reference { result.out.ghost_name ≡ out.entry.ghost_name }
        ensures buffer { result.out.now ≡ out.old }
        ensures start { result.at ≡ 0 }
    {
        Printer { out, at: 0 }
    }

    // A text.
    fn text(&mut self, text: &str)
        requires { HasRoom self.old (length text.now) }
        ensures { Prints self.old text.now self.new }
    {
        let end = self.at + text.len();
        self.out[self.at..end].copy_from_slice(text.as_bytes());
        self.at = end;
    }

    // The decimal digits of a number: at most five bytes.
    fn number(&mut self, n: u16)
        requires { HasRoom self.old 5 }
        ensures wrote { Prints self.old (decimal n) self.new }
        ensures room { self.new.at ≤ self.old.at + 5 }
    {
        self.text(Buffer::new().format(n));
    }

    // A space and a node.
    fn node(&mut self, node: Node)
        requires { HasRoom self.old 7 }
        ensures wrote { Prints self.old (32 ∷ node_word node) self.new }
        ensures room { self.new.at ≤ self.old.at + 7 }
    {
        let (letter, number) = match node {
            Node::Operation(number) => (" o", number),
            Node::Block(number) => (" b", number),
            Node::Region(number) => (" r", number),
        };
        self.text(letter);
        self.number(number);
    }

    // The nodes, each after a space.
    fn nodes(&mut self, nodes: &[Node])
        requires { HasRoom self.old (7 * length nodes.now) }
        ensures wrote { Prints self.old (spaced (map node_word nodes.now)) self.new }
        ensures room { self.new.at ≤ self.old.at + 7 * length nodes.now }
    {
        for node in nodes {
            self.node(*node);
        }
    }

    // What closes a line, after a space.
    fn close(&mut self, close: Close)
        requires { HasRoom self.old 6 }
        ensures wrote { Prints self.old (spaced (close_words close)) self.new }
        ensures room { self.new.at ≤ self.old.at + 6 }
    {
        self.text(match close {
            Close::Nothing => "",
            Close::Absent => " none",
            Close::End => " end",
            Close::Break => " break",
        });
    }
}

// Prints the line of a refused field, and says how long it is.
pub(crate) fn print_refused(out: &mut [u8], place: u16, refusal: Refusal) -> usize
    requires { 8192 ≤ length out.old }
    ensures line { Lined out.old place (refused refusal) result out.new }
    ensures room { result ≤ 8192 }
{
    let mut line = Printer::new(out);
    line.number(place);
    line.text(" refused ");
    line.number(u16::from(refusal.number()));
    line.text("\n");
    line.at
}

// Prints the line of a field that was done, and says how long it is. 1,024 nodes of 7 bytes leave room for the other words.
pub(crate) fn print_done(out: &mut [u8], place: u16, nodes: &[Node], close: Close) -> usize
    requires room { 8192 ≤ length out.old }
    requires few { length nodes.now ≤ 1024 }
    ensures line { Lined out.old place (done nodes.now close) result out.new }
    ensures room { result ≤ 8192 }
{
    let mut line = Printer::new(out);
    line.number(place);
    line.text(" ok");
    line.nodes(nodes);
    line.close(close);
    line.text("\n");
    line.at
}
