//! What the text of an accepted certificate comes to.
#![tactic(auto)]

ghost use Rattle.written_verdicts.specs.Written.{FewSplitsAreShown, WrittenIsShown};

/// The text of an accepted certificate shows its claim, where it is no longer than a certificate may be. A call that costs
/// nothing: it brings the law in as a fact.
pub fn written_is_shown()
    ensures { WrittenIsShown }
{}

/// Where no more splits are made than a search makes, and no need has too many parts, the text is no longer than a certificate may
/// be, so it shows its claim. A call that costs nothing.
pub fn few_splits_are_shown()
    ensures { FewSplitsAreShown }
{}

#[cfg(test)]
mod tests {
    use super::{few_splits_are_shown, written_is_shown};

    #[test]
    fn laws_hold() {
        written_is_shown();
        few_splits_are_shown();
    }
}
