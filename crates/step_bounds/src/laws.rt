//! What holds of every instance: a call of a law brings it to a proof.

ghost use Rattle.step_bounds.specs.Steps.{CountsKeepWithin, StepValuesAreFloors};
ghost use Rattle.step_bounds.specs.StepRows.{StepRowsComeOut};

/// No packing costs less than a step value, with caps or without.
pub fn step_values_are_floors()
    ensures { StepValuesAreFloors }
{}

/// Weights that add up to at most the capacity count for at most the capacity, at each step.
pub fn counts_keep_within()
    ensures { CountsKeepWithin }
{}

/// What the definitions say of worked instances.
pub fn step_rows_come_out()
    ensures { StepRowsComeOut }
{}
