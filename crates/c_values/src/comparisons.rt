ghost use Rattle.std.specs.Prelude.{◌≡◌, ◌↔◌, ◌<ℤ◌, IsTrue};
ghost use Rattle.c_values.specs.Kind.{IsValue, number_of};
ghost use Rattle.c_values.specs.Operations.{is_less, is_equal};

use crate::kinds::Kind;

/// Whether a value is below another of its kind (6.5.8p6).
pub fn less(a: u64, b: u64, kind: Kind) -> bool
    requires left { IsValue kind a }
    requires right { IsValue kind b }
    ensures value { result ≡ is_less kind a b }
    ensures number { IsTrue result ↔ (number_of kind a <ℤ number_of kind b) }
{
    if kind.signed {
        a.cast_signed() < b.cast_signed()
    } else {
        a < b
    }
}

/// Whether two values of a kind are equal (6.5.9p3).
pub fn equal(a: u64, b: u64, kind: Kind) -> bool
    requires left { IsValue kind a }
    requires right { IsValue kind b }
    ensures value { result ≡ is_equal kind a b }
    ensures number { IsTrue result ↔ (number_of kind a ≡ number_of kind b) }
{
    a == b
}
