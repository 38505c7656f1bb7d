//! What holds of every instance: a call of a law brings it to a proof.

ghost use Rattle.packing_laws.specs.Floors.{MaterialIsFloor, BestTypeGivesFloor, NoPlaceNoPacking, SingleIsReached};
ghost use Rattle.packing_laws.specs.Printed.{PackingsFit, EmptyBinsCanGo};
ghost use Rattle.packing_laws.specs.FloorExamples.{FloorsComeOut};

/// No packing costs less than the material bound.
pub fn material_is_floor()
    ensures { MaterialIsFloor }
{}

/// The floor in a dimension is what all units weigh there, in bins of a type with the most room for its cost.
pub fn best_type_gives_floor()
    ensures { BestTypeGivesFloor }
{}

/// Where no form of an item with a demand fits any type, there is no packing.
pub fn no_place_no_packing()
    ensures { NoPlaceNoPacking }
{}

/// Where each item with a demand fits some type without limit, some packing costs exactly the single cost.
pub fn single_is_reached()
    ensures { SingleIsReached }
{}

/// What the definitions of the bounds say of worked instances.
pub fn floors_come_out()
    ensures { FloorsComeOut }
{}

/// The sums that `tidy` forms of a packing of an instance fit.
pub fn packings_fit()
    ensures { PackingsFit }
{}

/// A packing without its empty bins is a packing, and costs no more.
pub fn empty_bins_can_go()
    ensures { EmptyBinsCanGo }
{}
