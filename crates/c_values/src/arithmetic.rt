ghost use Rattle.std.specs.Prelude.{◌≡◌, ◌+ℤ◌, ◌-ℤ◌, ◌*ℤ◌, neg_ℤ};
ghost use Rattle.c_values.specs.Kind.{IsValue, number_of, fit};
ghost use Rattle.c_values.specs.Operations.{sum_of, difference_of, product_of, negative_of};

use crate::conversions::fit;
use crate::kinds::Kind;

/// `a + b` (6.5.6p5): the number of the kind's range that equals the sum modulo 2 to the width.
pub fn add(a: u64, b: u64, kind: Kind) -> u64
    requires left { IsValue kind a }
    requires right { IsValue kind b }
    ensures value { result ≡ sum_of kind a b }
    ensures of_kind { IsValue kind result }
    ensures number { number_of kind result ≡ fit kind (number_of kind a +ℤ number_of kind b) }
{
    fit(a.wrapping_add(b), kind)
}

/// `a - b` (6.5.6p6): the number of the kind's range that equals the difference modulo 2 to the width.
pub fn sub(a: u64, b: u64, kind: Kind) -> u64
    requires left { IsValue kind a }
    requires right { IsValue kind b }
    ensures value { result ≡ difference_of kind a b }
    ensures of_kind { IsValue kind result }
    ensures number { number_of kind result ≡ fit kind (number_of kind a -ℤ number_of kind b) }
{
    fit(a.wrapping_sub(b), kind)
}

/// `a * b` (6.5.5p4): the number of the kind's range that equals the product modulo 2 to the width.
pub fn mul(a: u64, b: u64, kind: Kind) -> u64
    requires left { IsValue kind a }
    requires right { IsValue kind b }
    ensures value { result ≡ product_of kind a b }
    ensures of_kind { IsValue kind result }
    ensures number { number_of kind result ≡ fit kind (number_of kind a *ℤ number_of kind b) }
{
    fit(a.wrapping_mul(b), kind)
}

/// `-a` (6.5.3.3p3): the number of the kind's range that equals it modulo 2 to the width.
pub fn neg(a: u64, kind: Kind) -> u64
    requires { IsValue kind a }
    ensures value { result ≡ negative_of kind a }
    ensures of_kind { IsValue kind result }
    ensures number { number_of kind result ≡ fit kind (neg_ℤ (number_of kind a)) }
{
    fit(0_u64.wrapping_sub(a), kind)
}
