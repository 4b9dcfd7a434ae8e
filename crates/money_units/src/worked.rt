//! Worked examples of the text forms and of the rounding, as laws: the checker computes each.
ghost use Rattle.std.specs.Prelude.{◌≡◌, ◌-◌, ◌*◌, Some, None, pos, negsuc, codes};
ghost use Rattle.money_units.specs.Rounding.{half, ceil_div, signed_half};
ghost use Rattle.money_units.specs.Texts.{number, money, shares, rate, number_text, money_text, shares_text, signed_text};

/// $10.00 at a load of 575 basis points is offered at $10.61: halves round up, and so do losses by their size.
pub fn rounding_examples()
    ensures price { half (10000 * 1000) (10000 - 575) ≡ 1061 }
    ensures halfway { half 5 2 ≡ 3 }
    ensures below_halfway { half 4 3 ≡ 1 }
    ensures up { ceil_div 1000001 20 ≡ 50001 }
    ensures even { ceil_div 1000000 20 ≡ 50000 }
    ensures gain { signed_half (pos 5) 2 ≡ pos 3 }
    ensures loss { signed_half (negsuc 4) 2 ≡ negsuc 2 }
{}

/// What each form reads, and what it leaves.
pub fn reading_examples()
    ensures price { money (codes "10.61") ≡ Some 1061 }
    ensures nothing { money (codes "0.00") ≡ Some 0 }
    ensures largest { money (codes "9999999999999.99") ≡ Some 999999999999999 }
    ensures too_long { money (codes "10000000000000.00") ≡ None }
    ensures leading_zero { money (codes "010.61") ≡ None }
    ensures one_place { money (codes "10.6") ≡ None }
    ensures no_dollars { money (codes ".61") ≡ None }
    ensures no_point { money (codes "1061") ≡ None }
    ensures signed { money (codes "-0.01") ≡ None }
    ensures bought { shares (codes "942.507") ≡ Some 942507 }
    ensures dividend { rate (codes "0.120000") ≡ Some 120000 }
    ensures account { number (codes "4294967295") ≡ Some 4294967295 }
    ensures zero { number (codes "0") ≡ Some 0 }
    ensures empty { number (codes "") ≡ None }
    ensures twenty_digits { number (codes "10000000000000000000") ≡ None }
{}

/// What each value is written as.
pub fn printing_examples()
    ensures price { money_text 1061 ≡ codes "10.61" }
    ensures nothing { money_text 0 ≡ codes "0.00" }
    ensures a_cent { money_text 1 ≡ codes "0.01" }
    ensures bought { shares_text 942507 ≡ codes "942.507" }
    ensures account { number_text 4294967295 ≡ codes "4294967295" }
    ensures loss { signed_text (negsuc 49999) ≡ codes "-500.00" }
    ensures gain { signed_text (pos 50000) ≡ codes "500.00" }
    ensures even { signed_text (pos 0) ≡ codes "0.00" }
{}
