//! What holds of all weights. Each function is empty: a call brings its law in as a fact.

ghost use Rattle.weight_vec.specs.WeightLaws.{AtMostComesBefore, SumsKeepOrder, PaddingKeepsFits, PaddingKeepsOrder};

/// What is at most in each place and differs comes before in order.
pub fn at_most_comes_before()
    ensures { AtMostComesBefore }
{}

/// Sums keep order.
pub fn sums_keep_order()
    ensures { SumsKeepOrder }
{}

/// Zeros at the end of both sides change nothing of what fits.
pub fn padding_keeps_fits()
    ensures { PaddingKeepsFits }
{}

/// Zeros at the end of both sides change nothing of the order.
pub fn padding_keeps_order()
    ensures { PaddingKeepsOrder }
{}
