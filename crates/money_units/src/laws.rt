//! Laws of the units in plain words. Each function is empty: its clauses hold of the definitions.
ghost use Rattle.std.specs.Prelude.{◌≡◌, ◌+◌, ◌*◌, ◌^◌, ◌<◌, ◌≤◌, Some};
ghost use Rattle.money_units.specs.Rounding.{half, ceil_div};
ghost use Rattle.money_units.specs.Texts.{number, money, shares, number_text, money_text, shares_text};

/// What `half` gives is nearest: times the denominator it misses the numerator by at most half a denominator, and a
/// tie goes up.
pub fn half_is_nearest(a: u128, b: u128)
    requires positive { 1 ≤ b }
    ensures not_above { 2 * (half a b * b) ≤ 2 * a + b }
    ensures not_below { 2 * a < 2 * (half a b * b) + b }
{}

/// What `ceil_div` gives, times the denominator, covers the numerator, and is the least that does.
pub fn ceil_div_covers(a: u128, b: u128)
    requires positive { 1 ≤ b }
    ensures covers { a ≤ ceil_div a b * b }
    ensures least { ceil_div a b * b < a + b }
{}

/// A multiple of the denominator is exact, and a greater amount never rounds to less.
pub fn half_keeps_order(a: u128, c: u128, b: u128)
    requires positive { 1 ≤ b }
    requires ordered { a ≤ c }
    ensures exact { half (c * b) b ≡ c }
    ensures order { half a b ≤ half c b }
{}

/// Reading a printed number gives it back, for all numbers of at most 19 digits.
pub fn printed_number_reads_back(value: u64)
    requires { value < 10 ^ 19 }
    ensures { number (number_text value) ≡ Some value }
{}

/// Reading printed cents gives them back, for amounts below 10,000,000,000,000 dollars.
pub fn printed_cents_read_back(cents: u64)
    requires { cents < 10 ^ 15 }
    ensures { money (money_text cents) ≡ Some cents }
{}

/// Reading printed mils gives them back, for fewer than 10,000,000,000,000 shares.
pub fn printed_mils_read_back(mils: u64)
    requires { mils < 10 ^ 16 }
    ensures { shares (shares_text mils) ≡ Some mils }
{}
