// Who tells which tables keep their names.
ghost use Rattle.std.specs.Prelude.{◌≡◌, Bool};
ghost use Rattle.records.specs.declared.handles.OpPtr.{OpPtr};

use records::OpPtr;

// Whoever is asked of a table whether it keeps its names. The answer is a function of who is asked and of the table.
pub trait Keeper {
    ghost keeps: { Self → OpPtr → Bool };

    fn is_kept(&self, table: OpPtr) -> bool
        ensures { result ≡ keeps self.now table };
}
