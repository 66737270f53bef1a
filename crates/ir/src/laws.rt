// Theorems on the symbol tables of a store, a function whose contract they are.
ghost use Rattle.ir.specs.Tables.{HaveBodies, OneOfAName};

// Every table has one body, in which its symbols stand, and no body holds two of one name.
pub fn bodies_hold_symbols()
    ensures bodies { HaveBodies }
    ensures names { OneOfAName }
{}
