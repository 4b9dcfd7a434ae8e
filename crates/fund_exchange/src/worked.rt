//! Worked exchanges, as laws: the checker computes each.
ghost use Rattle.std.specs.Prelude.{◌≡◌, [], ◌∷◌, true, false};
ghost use Rattle.fund_exchange.specs.Exchange.{mils_at, transfer_of};

/// 100.000 shares of 2024-07-01 that cost $1,000.00 and go from 10.00 to 20.00 are 50.000 shares of the same date and cost.
pub fn half_as_many_shares()
    ensures { transfer_of 1000 2000
        (record { lot = 1; day = 19905; mils = 100000; cost = 100000; free = false } ∷ [])
        ≡ record {
          value = 100000;
          mils = 50000;
          cost = 100000;
          pieces = record { lot = 1; day = 19905; mils = 50000; cost = 100000; free = false }
              ∷ [];
        } }
{}

/// Two pieces of 0.001 shares go from 10.00 to 20.00: the first is worth $0.01, which buys 0.001 shares, and the two are
/// worth $0.02, which buy 0.001 shares too. So the second gives no share, makes no lot, and its cost is left out.
pub fn a_piece_without_shares_makes_no_lot()
    ensures first { mils_at 1000 2000 1 ≡ 1 }
    ensures both { mils_at 1000 2000 2 ≡ 1 }
    ensures carried { transfer_of 1000 2000
        (record { lot = 3; day = 19950; mils = 1; cost = 1; free = true }
        ∷ record { lot = 1; day = 19905; mils = 1; cost = 7; free = false } ∷ [])
        ≡ record {
          value = 2;
          mils = 1;
          cost = 1;
          pieces = record { lot = 3; day = 19950; mils = 1; cost = 1; free = true } ∷ [];
        } }
{}

/// Two pieces of 0.005 shares go from 10.00 to 30.00. Each by itself is worth $0.05, which buys 0.002 shares; together they
/// are worth $0.10, which buys 0.003 shares, and the two give 0.002 and 0.001.
pub fn pieces_are_rounded_together()
    ensures alone { mils_at 1000 3000 5 ≡ 2 }
    ensures both { mils_at 1000 3000 10 ≡ 3 }
    ensures carried { transfer_of 1000 3000
        (record { lot = 2; day = 19950; mils = 5; cost = 5; free = true }
        ∷ record { lot = 1; day = 19905; mils = 5; cost = 6; free = false } ∷ [])
        ≡ record {
          value = 10;
          mils = 3;
          cost = 11;
          pieces = record { lot = 2; day = 19950; mils = 2; cost = 5; free = true }
              ∷ record { lot = 1; day = 19905; mils = 1; cost = 6; free = false } ∷ [];
        } }
{}
