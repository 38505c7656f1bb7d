//! The parts of a need laid out in a table, by place.

ghost use Rattle.std.specs.Prelude.{◌≡◌, All, length};
ghost use Rattle.packing_laws.specs.Instances.{IsAmong};
ghost use Rattle.needs_check.specs.inner.Laid.{HoldsParts, IsClear};

use cert_text::ArcPart;

/// Lays what arcs carry out in a table of zeros.
pub(crate) fn lay_parts(table: &mut [u64], parts: &[ArcPart])
    requires clear { IsClear table.old }
    requires room { All (λ x. IsAmong x.arc (length table.old)) parts.now }
    ensures { HoldsParts parts.now table.new }
{
    for index in (0..parts.len()).rev() {
        let part = parts[index];
        table[part.arc as usize - 1] = part.value;
    }
}

/// Makes a table that holds what these arcs carry a table of zeros again.
pub(crate) fn clear_parts(table: &mut [u64], parts: &[ArcPart])
    requires laid { HoldsParts parts.now table.old }
    requires room { All (λ x. IsAmong x.arc (length table.old)) parts.now }
    ensures { IsClear table.new }
{
    for part in parts {
        table[part.arc as usize - 1] = 0;
    }
}
