//! Worked redemptions, as laws: the checker computes each.
ghost use Rattle.std.specs.Prelude.{◌≡◌, ◌-◌, [], ◌∷◌, true, false};
ghost use Rattle.share_lots.specs.Taking.{pieces};
ghost use Rattle.contingent_charge.specs.DeferredCharge.{rate_on, charge_of_pieces};

/// What was bought on 2024-02-29 has its first anniversary on 2025-02-28. The last row of a schedule ends with the next
/// anniversary.
pub fn rates()
    ensures before { rate_on 19782 20146 (500 ∷ 400 ∷ []) ≡ 500 }
    ensures anniversary { rate_on 19782 20147 (500 ∷ 400 ∷ []) ≡ 400 }
    ensures past { rate_on 19782 20512 (500 ∷ 400 ∷ []) ≡ 0 }
    ensures none { rate_on 19782 20146 [] ≡ 0 }
{}

/// 50.000 shares are sold in the first year of 5.000 free ones and of 100.000 bought for $1,000.00. At 12.00 they are worth
/// $600.00, and the charge is taken on the cost, $450.00: it is $22.50, and the holder has $577.50. At 8.00 it is taken on the
/// value of the shares that aren't free, $360.00: it is $18.00, and of $400.00 the holder has $382.00.
pub fn free_shares_bear_no_charge()
    ensures risen { charge_of_pieces
        (pieces 50000
        (record { number = 2; day = 19950; loose = 5000; held = 0; cost = 5000; free = true }
        ∷ record {
          number = 1;
          day = 19905;
          loose = 100000;
          held = 0;
          cost = 100000;
          free = false;
        } ∷ [])) 1200 19997 (500 ∷ 400 ∷ 300 ∷ 200 ∷ 100 ∷ [])
        ≡ record { value = 60000; base = 45000; charge = 2250 } }
    ensures risen_holder { 60000 - 2250 ≡ 57750 }
    ensures fallen { charge_of_pieces
        (pieces 50000
        (record { number = 2; day = 19950; loose = 5000; held = 0; cost = 5000; free = true }
        ∷ record {
          number = 1;
          day = 19905;
          loose = 100000;
          held = 0;
          cost = 100000;
          free = false;
        } ∷ [])) 800 19997 (500 ∷ 400 ∷ 300 ∷ 200 ∷ 100 ∷ [])
        ≡ record { value = 40000; base = 36000; charge = 1800 } }
    ensures fallen_holder { 40000 - 1800 ≡ 38200 }
{}

/// 50.000 shares of 2024-07-01 that cost $1,000.00 are sold at 20.00: on the day before the first anniversary for a charge of
/// 5%, on it, 2025-07-01, of 4%, and from 2029-07-01 on, when the schedule is through, without one.
pub fn anniversaries_lower_the_charge()
    ensures day_before { charge_of_pieces (record {
      lot = 1;
      day = 19905;
      mils = 50000;
      cost = 100000;
      free = false;
    } ∷ [])
        2000 20269 (500 ∷ 400 ∷ 300 ∷ 200 ∷ 100 ∷ [])
        ≡ record { value = 100000; base = 100000; charge = 5000 } }
    ensures first { charge_of_pieces (record {
      lot = 1;
      day = 19905;
      mils = 50000;
      cost = 100000;
      free = false;
    } ∷ [])
        2000 20270 (500 ∷ 400 ∷ 300 ∷ 200 ∷ 100 ∷ [])
        ≡ record { value = 100000; base = 100000; charge = 4000 } }
    ensures through { charge_of_pieces (record {
      lot = 1;
      day = 19905;
      mils = 50000;
      cost = 100000;
      free = false;
    } ∷ [])
        2000 21731 (500 ∷ 400 ∷ 300 ∷ 200 ∷ 100 ∷ [])
        ≡ record { value = 100000; base = 100000; charge = 0 } }
{}

/// Of two pieces of half a cent each the first has the whole cent: together they have the value of both.
pub fn values_make_the_whole()
    ensures { charge_of_pieces
        (record { lot = 1; day = 19905; mils = 1; cost = 1; free = true }
        ∷ record { lot = 2; day = 19906; mils = 1; cost = 1; free = false } ∷ []) 500 19997
        (500 ∷ [])
        ≡ record { value = 1; base = 0; charge = 0 } }
{}
