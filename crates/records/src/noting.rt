// The operation record's own method: its note.
ghost use Rattle.std.specs.Prelude.{◌≡◌};
ghost use Rattle.records.specs.Notes.{noted};

use crate::operation::Operation;

impl Operation {
    // Sets the note; the rest of the record stays.
    pub fn set_note(&mut self, note: u32)
        ensures { self.new ≡ noted note self.old }
    {
        self.note = note;
    }
}
