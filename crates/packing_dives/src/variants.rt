//! In what dives differ.

/// So few copies are taken by all variants alike.
pub(crate) const FEW: u32 = 2;

/// How many copies of a column are taken of those that are in the program's solution as a whole.
#[derive(Clone, Copy, Debug, PartialEq, Eq)]
enum Taking {
    All,
    /// Fewer at the first step.
    FewerFirst,
    Fewer,
}

/// By how much one dive differs from the others: how many copies it takes, and at which of its first steps it passes over
/// the best columns.
#[derive(Clone, Copy, Debug, PartialEq, Eq)]
pub(crate) struct Variant {
    taking: Taking,
    /// For each of the first steps, from the last digit on in base 3, how many columns are passed over.
    passed: u32,
}

impl Variant {
    /// The variant of a dive by its number, from 0: the ways of taking in turn, where there are columns with many copies,
    /// and after each round of them another choice of columns.
    pub(crate) fn numbered(turn: u32, has_many: bool) -> Variant {
        if !has_many {
            return Variant {
                taking: Taking::All,
                passed: turn,
            };
        }
        let taking = match turn % 3 {
            0 => Taking::All,
            1 => Taking::FewerFirst,
            _ => Taking::Fewer,
        };
        Variant {
            taking,
            passed: turn / 3,
        }
    }

    /// How many copies are taken at a step, from 0, of so many.
    pub(crate) fn taken(self, whole: u32, step: u32) -> u32 {
        match self.taking {
            Taking::FewerFirst if step == 0 && whole > FEW => whole.saturating_sub(1 + whole / 8),
            Taking::Fewer if whole > FEW => whole.saturating_sub(1 + whole / 4),
            _ => whole,
        }
    }

    /// How many columns are passed over at a step, from 0, before one is rounded up.
    pub(crate) fn passed_over(self, step: u32) -> usize {
        let mut passed = self.passed;
        for _ in 0..step.min(21) {
            passed /= 3;
        }
        (passed % 3) as usize
    }
}
