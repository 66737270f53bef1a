// The line call: runs the field at a place of a script, and prints its line.
// Kept: a script and a place in it as parameters, since by a rule of the project the line call is lent both.
ghost use Rattle.std.specs.Prelude.{◌≡◌};
ghost use Rattle.script.specs.Runs.{Ran, Onward, FieldRun, answer_of, length_of, next_of, refusal_of};

use crate::field::read_field;
use crate::node::{Close, Nodes};
use crate::print::{print_done, print_refused};
use crate::session::Session;
use crate::state::State;
use result::Refusal;

// The answer of the line call.
#[derive(Clone, Copy, Debug, PartialEq, Eq, Drop)]
pub enum Line {
    // The script has over 4,096 bytes, the place lies past its end, or the buffer has under 8,192 bytes: refused, nothing is
    // printed, and the place stays.
    Bounds,
    // The place is the script's end: nothing is printed, and the place stays.
    End,
    // A line of so many bytes stands at the buffer's start; the next field is at the place next.
    Printed { length: usize, next: usize },
}

// Kept: one match for each question: each tells another part of the answer, and one text for them is no plainer.
impl Line {
    // The refusal that this answer is, if it is one.
    pub fn refusal(self) -> Option<Refusal>
        ensures { result ≡ refusal_of self }
    {
        match self {
            Line::Bounds => Some(Refusal::Bounds),
            Line::End | Line::Printed { .. } => None,
        }
    }

    // How many bytes were printed.
    pub fn length(self) -> usize
        ensures { result ≡ length_of self }
    {
        match self {
            Line::Bounds | Line::End => 0,
            Line::Printed { length, .. } => length,
        }
    }

    // Where to go on, after this answer at a place.
    pub fn next(self, place: usize) -> usize
        ensures { result ≡ next_of place self }
    {
        match self {
            Line::Bounds | Line::End => place,
            Line::Printed { next, .. } => next,
        }
    }
}

// Runs the field at a place, and prints its line at the buffer's start. What lies beyond the line stays.
pub fn read_line(session: &mut Session, script: &[u8], place: usize, out: &mut [u8]) -> Line
    ensures ran { Ran session.old.state script.now place out.old result session.new.state out.new }
    ensures onward { Onward script.now place out.old result }
{
    if script.len() > 4096 || place > script.len() || out.len() < 8192 {
        return Line::Bounds;
    }
    if place == script.len() {
        return Line::End;
    }
    let (answer, next) = session.state.run_field(script, place, &mut session.nodes);
    let length = match answer {
        Ok(close) => print_done(out, place as u16, session.nodes.as_slice(), close),
        Err(refusal) => print_refused(out, place as u16, refusal),
    };
    Line::Printed { length, next }
}

impl State {
    // Runs the field at a place, and lists the nodes to show. Says what closes the line or why the field is refused, and where
    // to go on.
    // Kept: an answer with the next place beside it, since a refused field has one too.
    fn run_field(
        &mut self,
        script: &[u8],
        place: usize,
        nodes: &mut Nodes,
    ) -> (Result<Close, Refusal>, usize)
        ensures { FieldRun self.old script.now place (answer_of nodes.new.items result.0) result.1 self.new }
    {
        match read_field(script, place) {
            Ok(field) => (self.run(field.tag, field.value, nodes), field.next),
            Err(refusal) => (Err(refusal), script.len()),
        }
    }
}
