// A set of indices, as the bits of a number.
ghost use Rattle.std.specs.Prelude.{◌≡◌, ◌^◌, ◌%◌, ◌≤◌, ◌<◌};
ghost use Rattle.field.specs.Field.{Represents};
ghost use Rattle.diagram.specs.Tensor.{bits, members, power2};
ghost use Rattle.diagram.specs.Mask.{MaskWithout, MaskFrom};

use crate::node::{Index, Mask, Weight};

// The number of the set that has k alone.
pub(crate) fn power(k: Index) -> Mask
    requires { k < 64 }
    ensures { result ≡ 2 ^ k }
{
    1 << k
}

// Is k a member of m?
pub(crate) fn has(m: Mask, k: Index) -> bool
    requires { k < 64 }
    ensures { result ≡ bits m k }
{
    (m >> k) % 2 == 1
}

// m without k.
pub(crate) fn without(m: Mask, k: Index) -> Mask
    requires { k < 64 }
    ensures { MaskWithout m k result }
{
    if has(m, k) {
        let b = power(k);
        return m - b;
    }
    m
}

// 2 to the power n.
fn doubled(n: u32) -> Weight
    ensures { Represents result (power2 n) }
{
    let mut r = 1;
    for _ in 0..n {
        r = field::add(r, r);
    }
    r
}

// The members of m below k.
fn below(m: Mask, k: Index) -> Mask
    requires { k < 64 }
    ensures { (result ≡ m % 2 ^ k) × (result ≤ m) }
{
    let b = power(k);
    m % b
}

// 2 to the count of members below k, of which there are mostly none.
pub(crate) fn factor(m: Mask, k: Index) -> Weight
    requires { k < 64 }
    ensures { Represents result (power2 (members k (bits m))) }
{
    let b = below(m, k);
    if b == 0 {
        return 1;
    }
    doubled(u64::count_ones(b))
}

// The members of m from k on.
pub(crate) fn from(m: Mask, k: Index) -> Mask
    requires { k < 64 }
    ensures { MaskFrom m k result }
{
    let b = below(m, k);
    m - b
}
