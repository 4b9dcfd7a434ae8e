//! Worked examples of lots, as laws: the checker computes each.
ghost use Rattle.std.specs.Prelude.{◌≡◌, [], ◌∷◌, true, false};
ghost use Rattle.share_lots.specs.Lots.{lots_with};
ghost use Rattle.share_lots.specs.Taking.{pieces, lots_less, after_taking, after_paying};

/// 100.000 shares were bought for $1,000.00 and 5.000 free ones came from a dividend of $50.00. Of 50.000 taken the free
/// lot gives its 5.000 first, and then the bought lot gives 45.000 with $450.00 of its cost, and keeps $550.00.
pub fn free_shares_go_first()
    ensures pieces { pieces 50000
        (record { number = 2; day = 19950; loose = 5000; held = 0; cost = 5000; free = true }
        ∷ record {
          number = 1;
          day = 19905;
          loose = 100000;
          held = 0;
          cost = 100000;
          free = false;
        } ∷ [])
        ≡ record { lot = 2; day = 19950; mils = 5000; cost = 5000; free = true }
        ∷ record { lot = 1; day = 19905; mils = 45000; cost = 45000; free = false } ∷ [] }
    ensures rest { after_taking
        (record {
          lots = record {
            number = 2;
            day = 19950;
            loose = 5000;
            held = 0;
            cost = 5000;
            free = true;
          } ∷ record {
            number = 1;
            day = 19905;
            loose = 100000;
            held = 0;
            cost = 100000;
            free = false;
          } ∷ [];
          next_lot = 3;
        }) 50000
        ≡ record {
          lots = record {
            number = 1;
            day = 19905;
            loose = 55000;
            held = 0;
            cost = 55000;
            free = false;
          } ∷ [];
          next_lot = 3;
        } }
{}

/// Of two lots of one date the one with the smaller number is the lower in rank, and a third of $1.00 is $0.33: what a
/// lot keeps of its cost is the rest.
pub fn one_date_goes_by_number()
    ensures place { lots_with (record {
      number = 2;
      day = 7;
      loose = 3;
      held = 0;
      cost = 100;
      free = false;
    })
        (record { number = 1; day = 7; loose = 3; held = 0; cost = 100; free = false } ∷ [])
        ≡ record { number = 1; day = 7; loose = 3; held = 0; cost = 100; free = false }
        ∷ record { number = 2; day = 7; loose = 3; held = 0; cost = 100; free = false } ∷ [] }
    ensures third { lots_less 1
        (record { number = 1; day = 7; loose = 3; held = 0; cost = 100; free = false } ∷ [])
        ≡ record { number = 1; day = 7; loose = 2; held = 0; cost = 67; free = false } ∷ [] }
{}

/// Held mils are paid by date and number, also those of a free lot: here the free lot is the later one.
pub fn held_mils_go_by_date()
    ensures paid { after_paying
        (record {
          lots = record { number = 2; day = 9; loose = 0; held = 10; cost = 10; free = true }
              ∷ record { number = 1; day = 7; loose = 0; held = 10; cost = 10; free = false }
              ∷ [];
          next_lot = 3;
        }) 12
        ≡ record {
          lots = record { number = 2; day = 9; loose = 0; held = 8; cost = 8; free = true }
              ∷ [];
          next_lot = 3;
        } }
{}
