//! What certificates show. Each function is empty: a call brings its law in as a fact.

ghost use Rattle.cert_laws.specs.Exact.{FaultsAreExact};
ghost use Rattle.cert_laws.specs.Shown.{CertifiedIsSo, NeedsBarPrices};
ghost use Rattle.cert_laws.specs.Worked.{Examples};

/// What an accepted certificate claims is so, over a faithful graph: no packing costs less than the bound, or there is none.
pub fn certified_is_so()
    ensures { CertifiedIsSo }
{}

/// Where a need holds in a box, no prices close the box for the goal, so the split was needed.
pub fn needs_bar_prices()
    ensures { NeedsBarPrices }
{}

/// A line is accepted or refused for one cause, and a certificate has one first fault or none.
pub fn faults_are_exact()
    ensures { FaultsAreExact }
{}

/// A certificate that is worked by hand.
pub fn examples_come_out()
    ensures { Examples }
{}
