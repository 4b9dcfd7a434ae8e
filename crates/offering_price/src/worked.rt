//! Worked purchases, as laws: the checker computes each.
ghost use Rattle.std.specs.Prelude.{◌≡◌, ◌+◌, ◌*◌, Some, None, [], ◌∷◌};
ghost use Rattle.money_units.specs.Rounding.{half};
ghost use Rattle.class_terms.specs.Tables.{row_of};
ghost use Rattle.offering_price.specs.Accumulation.{bracket, credit};
ghost use Rattle.offering_price.specs.Purchase.{split_of};

/// Purchases with and without a load.
pub fn purchases()
    ensures loaded { split_of 1000000 1000 575
        ≡ Some
        (record {
          rate = 575;
          price = 1061;
          mils = 942507;
          proceeds = 942507;
          charge = 57493;
        }) }
    ensures below_breakpoint { split_of 2499999 1000 575
        ≡ Some
        (record {
          rate = 575;
          price = 1061;
          mils = 2356267;
          proceeds = 2356267;
          charge = 143732;
        }) }
    ensures at_breakpoint { split_of 2500000 1000 500
        ≡ Some
        (record {
          rate = 500;
          price = 1053;
          mils = 2374169;
          proceeds = 2374169;
          charge = 125831;
        }) }
    ensures no_load { split_of 79300 2011 0
        ≡ Some (record { rate = 0; price = 2011; mils = 39433; proceeds = 79300; charge = 0 }) }
    ensures too_small { split_of 1 10000000 0 ≡ None }
{}

/// The second purchase of a household that bought $25,000.00 at 10.00, when the value has fallen to 9.00: the position is worth
/// $21,367.52 and counts at its cost, so the two together reach the third row.
pub fn accumulation()
    ensures value { half (2374169 * 900) 1000 ≡ 2136752 }
    ensures credit { credit (record { mils = 2374169; cost = 2500000; nav = Some 900 } ∷ [])
        ≡ 2500000 }
    ensures unpriced { credit (record { mils = 5000; cost = 7000; nav = None } ∷ []) ≡ 7000 }
    ensures alone { bracket (row_of 0 575 ∷ row_of 2500000 500 ∷ row_of 5000000 450 ∷ []) 2500000
        ≡ 500 }
    ensures together { bracket (row_of 0 575 ∷ row_of 2500000 500 ∷ row_of 5000000 450 ∷ [])
        (2500000 + 2500000)
        ≡ 450 }
    ensures split { split_of 2500000 900 450
        ≡ Some
        (record {
          rate = 450;
          price = 942;
          mils = 2653928;
          proceeds = 2388535;
          charge = 111465;
        }) }
{}
