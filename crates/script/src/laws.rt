// What holds of every run of the line call.
ghost use Rattle.script.specs.Runs.{OneLine};

// The line call has one answer: the session, the script, the place and the buffer decide it, and what it prints and numbers.
pub fn line_is_one()
    ensures { OneLine }
{}
