//! What holds of every text. Each function is empty: a call brings its law in as a fact.

ghost use Rattle.cert_stream.specs.Laws.{VerdictsAreExact, VerdictsAreSo};

/// What a text shows over a faithful graph is so: no packing costs less than the bound, or there is none.
pub fn verdicts_are_so()
    ensures { VerdictsAreSo }
{}

/// No text has two verdicts.
pub fn verdicts_are_exact()
    ensures { VerdictsAreExact }
{}
