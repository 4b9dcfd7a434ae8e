//! Rounding of money and shares.
ghost use Rattle.std.specs.Prelude.{◌≡◌, ◌^◌, ◌/◌, ◌≤◌, nat_abs};
ghost use Rattle.money_units.specs.Rounding.{half, ceil_div, signed_half};

/// `a` over `b` to the nearest whole number, and up where it lies halfway between two.
pub fn half(a: u128, b: u128) -> u128
    requires positive { 1 ≤ b }
    requires numerator { a ≤ 2 ^ 120 }
    requires denominator { b ≤ 2 ^ 120 }
    ensures { result ≡ half a b }
{
    quotient(2 * a + b, 2 * b)
}

/// `a` over `b`, rounded down, by a division of 64 bits where both have no more.
fn quotient(a: u128, b: u128) -> u128
    requires positive { 1 ≤ b }
    ensures { result ≡ a / b }
{
    if a < 1 << 64 && b < 1 << 64 {
        (a as u64 / b as u64) as u128
    } else {
        a / b
    }
}

/// `a` over `b`, rounded up.
pub fn ceil_div(a: u128, b: u128) -> u128
    requires positive { 1 ≤ b }
    requires numerator { a ≤ 2 ^ 120 }
    requires denominator { b ≤ 2 ^ 120 }
    ensures { result ≡ ceil_div a b }
{
    (a + (b - 1)) / b
}

/// `half` of the size of `a`, with the sign of `a`.
pub fn signed_half(a: i128, b: u128) -> i128
    requires positive { 1 ≤ b }
    requires numerator { nat_abs a ≤ 2 ^ 120 }
    requires denominator { b ≤ 2 ^ 120 }
    ensures { result ≡ signed_half a b }
{
    let size = half(a.unsigned_abs(), b) as i128;
    if a < 0 { -size } else { size }
}
