//! What holds of every instance. Each function is empty: a call brings its law in as a fact.

ghost use Rattle.bound_certificates.specs.FoundBounds.{FoundBoundsAreAccepted};
ghost use Rattle.bound_certificates.specs.MaterialPrices.{MaterialPricesClose};

/// Material prices close every box of every faithful graph for each bound up to the material bound.
pub fn material_prices_close()
    ensures { MaterialPricesClose }
{}

/// The certificate of a bound that is found is accepted over every faithful graph.
pub fn found_bounds_are_accepted()
    ensures { FoundBoundsAreAccepted }
{}
