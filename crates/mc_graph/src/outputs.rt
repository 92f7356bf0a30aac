//! The rules that outputs keep.

ghost use Rattle.std.specs.Prelude.{◌≡◌};
ghost use Rattle.std.specs.List.{list_any};
ghost use Rattle.mc_model.specs.Numbers.{is_member};
ghost use Rattle.mc_pattern.specs.Rules.{is_stranger, is_twice};

use mc_lists::count;

/// Whether one of the numbers is no vertex.
pub(crate) fn has_stranger(vertices: u16, outputs: &[u16]) -> bool
    ensures { result ≡ list_any (is_stranger vertices) outputs.now }
{
    outputs.iter().any(|v| *v >= vertices)
}

/// Whether one of the numbers is listed twice.
pub(crate) fn has_twice(outputs: &[u16]) -> bool
    ensures { result ≡ list_any (is_twice outputs.now) outputs.now }
{
    outputs.iter().any(|v| count(outputs, *v) > 1)
}

pub(crate) fn lists(outputs: &[u16], v: u16) -> bool
    ensures { result ≡ is_member outputs.now v }
{
    outputs.iter().any(|other| v == *other)
}
