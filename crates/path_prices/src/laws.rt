//! What holds of all gains. The function is empty: a call brings its law in as a fact.

ghost use Rattle.path_prices.specs.Laws.{GainsAreKnown};

/// Each type has a gain, and its bins gain at most so much exactly where the gain is at most that.
pub fn gains_are_known()
    ensures { GainsAreKnown }
{}
