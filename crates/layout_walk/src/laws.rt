//! Laws of the layouts, as the contracts of functions that do nothing.

ghost use Rattle.std.specs.Prelude.{List, ℕ};
ghost use Rattle.packing_laws.specs.Layouts.{Layout, ReadsOrBadPlace};

/// Each text reads as one instance or has one bad place, and not both.
pub fn each_text_reads_or_has_a_bad_place()
    ensures { (layout : Layout) (text : List ℕ) → ReadsOrBadPlace layout text }
{}
