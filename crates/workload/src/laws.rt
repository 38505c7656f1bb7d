//! Laws of the generator, as the contracts of functions that do nothing.

ghost use Rattle.workload.specs.GeneratedRows.{GeneratedRows};

/// What seed 1 gives.
pub fn generated_rows_come_out()
    ensures { GeneratedRows }
{}
