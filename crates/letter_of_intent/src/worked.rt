//! Worked letters of intent, as laws: the checker computes each.
ghost use Rattle.std.specs.Prelude.{◌≡◌, ◌-◌, [], ◌∷◌, true, false, Some, None};
ghost use Rattle.class_terms.specs.Tables.{row_of};
ghost use Rattle.letter_of_intent.specs.Letters.{new_letter, note_of_purchase, after_purchase, has_expired, last_day, rate_earned, load_due, settlement};
ghost use Rattle.offering_price.specs.Purchase.{offering_price, mils_bought};

/// A letter of $50,000.00 begins on 2024-07-01, and $10,000.00 are bought at 10.00: by the letter's rate of 4.50% the
/// price is 10.47, and of 955.110 shares 238.778 are held, which cover the twentieth of $2,500.00.
pub fn a_purchase_under_a_letter()
    ensures letter { new_letter 5000000 19905 0
        (row_of 0 575 ∷ row_of 2500000 500 ∷ row_of 5000000 450 ∷ row_of 10000000 350
        ∷ row_of 25000000 250 ∷ row_of 50000000 200 ∷ row_of 100000000 0 ∷ [])
        ≡ record {
          amount = 5000000;
          day = 19905;
          start = 0;
          rate = 450;
          rest = 250000;
          bought = 0;
        } }
    ensures price { offering_price 1000 450 ≡ 1047 }
    ensures mils { mils_bought 1000000 1047 ≡ 955110 }
    ensures noted { note_of_purchase
        (record {
          amount = 5000000;
          day = 19905;
          start = 0;
          rate = 450;
          rest = 250000;
          bought = 0;
        }) 1000000 1047 955110
        ≡ record { hold = 238778; reached = false } }
    ensures after { after_purchase
        (record {
          amount = 5000000;
          day = 19905;
          start = 0;
          rate = 450;
          rest = 250000;
          bought = 0;
        }) 1000000 1047 955110
        ≡ record {
          amount = 5000000;
          day = 19905;
          start = 0;
          rate = 450;
          rest = 0;
          bought = 1000000;
        } }
{}

/// The first 100.000 shares at 10.47 are all held and leave $1,453.00 of the twentieth to hold. A cent short of the
/// amount the letter stays open, and with that cent it is reached. A mil at 10.47 leaves a cent less to hold, and a
/// letter of $0.21 holds shares for $0.02.
pub fn steps_of_an_escrow()
    ensures small { note_of_purchase
        (record {
          amount = 5000000;
          day = 19905;
          start = 0;
          rate = 450;
          rest = 250000;
          bought = 0;
        }) 104700 1047 100000
        ≡ record { hold = 100000; reached = false } }
    ensures left { after_purchase
        (record {
          amount = 5000000;
          day = 19905;
          start = 0;
          rate = 450;
          rest = 250000;
          bought = 0;
        }) 104700 1047 100000
        ≡ record {
          amount = 5000000;
          day = 19905;
          start = 0;
          rate = 450;
          rest = 145300;
          bought = 104700;
        } }
    ensures short { note_of_purchase
        (record {
          amount = 5000000;
          day = 19905;
          start = 0;
          rate = 450;
          rest = 0;
          bought = 1000000;
        }) 3999999 1047 3820439
        ≡ record { hold = 0; reached = false } }
    ensures reached { note_of_purchase
        (record {
          amount = 5000000;
          day = 19905;
          start = 0;
          rate = 450;
          rest = 0;
          bought = 1000000;
        }) 4000000 1047 3820439
        ≡ record { hold = 0; reached = true } }
    ensures whole_cents { (after_purchase
        (record {
          amount = 5000000;
          day = 19905;
          start = 0;
          rate = 450;
          rest = 250000;
          bought = 0;
        }) 1 1047 1).rest
        ≡ 249999 }
    ensures rounded_up { (new_letter 21 19905 0 (row_of 0 0 ∷ [])).rest ≡ 2 }
{}

/// At its end the purchases have earned 5.75%, so that 1.25% of $10,000.00 are due. At 11.00 these are 11.364 of the
/// 238.778 held shares, and 227.414 become loose. At 0.10 all held shares bring $23.88, and the rest is waived. With a
/// credit of $15,000.00 at its beginning the purchases reach 5.00%. Of purchases of $0.40 half a cent is due, and so a
/// cent.
pub fn a_letter_that_falls_short()
    ensures earned { rate_earned
        (row_of 0 575 ∷ row_of 2500000 500 ∷ row_of 5000000 450 ∷ row_of 10000000 350
        ∷ row_of 25000000 250 ∷ row_of 50000000 200 ∷ row_of 100000000 0 ∷ [])
        (record {
          amount = 5000000;
          day = 19905;
          start = 0;
          rate = 450;
          rest = 0;
          bought = 1000000;
        })
        ≡ 575 }
    ensures paid { settlement
        (row_of 0 575 ∷ row_of 2500000 500 ∷ row_of 5000000 450 ∷ row_of 10000000 350
        ∷ row_of 25000000 250 ∷ row_of 50000000 200 ∷ row_of 100000000 0 ∷ [])
        (record {
          amount = 5000000;
          day = 19905;
          start = 0;
          rate = 450;
          rest = 0;
          bought = 1000000;
        }) 1100 238778
        ≡ record { due = 12500; paid = 11364; cash = 12500; waived = 0 } }
    ensures released { 238778 -
        (settlement
        (row_of 0 575 ∷ row_of 2500000 500 ∷ row_of 5000000 450 ∷ row_of 10000000 350
        ∷ row_of 25000000 250 ∷ row_of 50000000 200 ∷ row_of 100000000 0 ∷ [])
        (record {
          amount = 5000000;
          day = 19905;
          start = 0;
          rate = 450;
          rest = 0;
          bought = 1000000;
        }) 1100 238778).paid
        ≡ 227414 }
    ensures waived { settlement
        (row_of 0 575 ∷ row_of 2500000 500 ∷ row_of 5000000 450 ∷ row_of 10000000 350
        ∷ row_of 25000000 250 ∷ row_of 50000000 200 ∷ row_of 100000000 0 ∷ [])
        (record {
          amount = 5000000;
          day = 19905;
          start = 0;
          rate = 450;
          rest = 0;
          bought = 1000000;
        }) 10 238778
        ≡ record { due = 12500; paid = 238778; cash = 2388; waived = 10112 } }
    ensures none_held { settlement
        (row_of 0 575 ∷ row_of 2500000 500 ∷ row_of 5000000 450 ∷ row_of 10000000 350
        ∷ row_of 25000000 250 ∷ row_of 50000000 200 ∷ row_of 100000000 0 ∷ [])
        (record {
          amount = 5000000;
          day = 19905;
          start = 0;
          rate = 450;
          rest = 0;
          bought = 1000000;
        }) 1100 0
        ≡ record { due = 12500; paid = 0; cash = 0; waived = 12500 } }
    ensures tie_goes_up { load_due
        (row_of 0 575 ∷ row_of 2500000 500 ∷ row_of 5000000 450 ∷ row_of 10000000 350
        ∷ row_of 25000000 250 ∷ row_of 50000000 200 ∷ row_of 100000000 0 ∷ [])
        (record { amount = 5000000; day = 19905; start = 0; rate = 450; rest = 0; bought = 40 })
        ≡ 1 }
    ensures credit { settlement
        (row_of 0 575 ∷ row_of 2500000 500 ∷ row_of 5000000 450 ∷ row_of 10000000 350
        ∷ row_of 25000000 250 ∷ row_of 50000000 200 ∷ row_of 100000000 0 ∷ [])
        (record {
          amount = 5000000;
          day = 19905;
          start = 1500000;
          rate = 450;
          rest = 0;
          bought = 1000000;
        }) 1100 238778
        ≡ record { due = 5000; paid = 4546; cash = 5000; waived = 0 } }
{}

/// A letter of 2024-07-01 stands on 2025-08-01 and has expired on the day after. One of 2024-01-31 stands on
/// 2025-02-28, the month's last day. One of 2198-12-01 never ends by date.
pub fn thirteen_months()
    ensures last { last_day
        (record {
          amount = 5000000;
          day = 19905;
          start = 0;
          rate = 450;
          rest = 0;
          bought = 1000000;
        })
        ≡ Some 20301 }
    ensures on_the_day { has_expired
        (record {
          amount = 5000000;
          day = 19905;
          start = 0;
          rate = 450;
          rest = 0;
          bought = 1000000;
        }) 20301
        ≡ false }
    ensures day_after { has_expired
        (record {
          amount = 5000000;
          day = 19905;
          start = 0;
          rate = 450;
          rest = 0;
          bought = 1000000;
        }) 20302
        ≡ true }
    ensures short_month { has_expired
        (record {
          amount = 5000000;
          day = 19753;
          start = 0;
          rate = 450;
          rest = 0;
          bought = 1000000;
        }) 20147
        ≡ false }
    ensures past_short_month { has_expired
        (record {
          amount = 5000000;
          day = 19753;
          start = 0;
          rate = 450;
          rest = 0;
          bought = 1000000;
        }) 20148
        ≡ true }
    ensures no_last { last_day
        (record {
          amount = 5000000;
          day = 83610;
          start = 0;
          rate = 450;
          rest = 0;
          bought = 1000000;
        })
        ≡ None }
    ensures never { has_expired
        (record {
          amount = 5000000;
          day = 83610;
          start = 0;
          rate = 450;
          rest = 0;
          bought = 1000000;
        }) 84005
        ≡ false }
{}
