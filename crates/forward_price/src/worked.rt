//! Worked examples of prices, as laws: the checker computes each.
ghost use Rattle.std.specs.Prelude.{◌≡◌, [], ◌∷◌, Some, None};
ghost use Rattle.forward_price.specs.declared.price_sheet.PublishFault.TheVariants.{SheetOutOfTurn, SheetIncomplete, TooSoon};
ghost use Rattle.forward_price.specs.July.{july, openings, first_sheet, second_sheet, on_first, sheets_of_july};
ghost use Rattle.forward_price.specs.PriceTables.{next_sheet, price_on, price_before, sheets_on_trial, sheets_with_nav, number_at, without_day_of};
ghost use Rattle.forward_price.specs.Turns.{due_of, expected_of, expected_in, wrong_class, publish_fault};

/// An order at 15:59:59 is due on the same day, one at 16:00 on the next, and one at 16:00 of the 3rd on the 5th, since
/// the 4th is a holiday. A class opened at 16:00 is due on the next day. A closed day's orders go to the day after.
pub fn orders_are_due_after_their_receipt()
    ensures before { due_of on_first (14 ∷ []) 1719863999 ≡ Some 1719864000 }
    ensures at { due_of on_first (14 ∷ []) 1719864000 ≡ Some 1719950400 }
    ensures holiday { due_of on_first (14 ∷ []) 1720036800 ≡ Some 1720209600 }
    ensures opening { due_of on_first (13 ∷ 14 ∷ []) 0 ≡ Some 1719950400 }
    ensures closed { due_of (without_day_of on_first 1 19906) (14 ∷ []) 1719864000
        ≡ Some 1720036800 }
    ensures ended { due_of on_first (14 ∷ []) 1720209600 ≡ None }
{}

/// Two calendars with one moment go by number, and a class opened at a pricing moment is listed on the next sheet.
pub fn sheets_go_in_turn()
    ensures expected { expected_of on_first ≡ Some (1719864000, 1) }
    ensures next { expected_in (july 2 ∷ july 1 ∷ []) openings (first_sheet ∷ [])
        ≡ Some (1719864000, 2) }
    ensures then { expected_in (july 2 ∷ july 1 ∷ []) openings sheets_of_july
        ≡ Some (1719950400, 2) }
    ensures none { expected_in (july 1 ∷ []) [] [] ≡ None }
    ensures too_many { wrong_class openings 1 1719864000 ((13, 2000) ∷ (14, 1000) ∷ [])
        ≡ Some 13 }
    ensures missing { wrong_class openings 1 1719950400 ((14, 1000) ∷ []) ≡ Some 13 }
    ensures complete { wrong_class openings 1 1719950400 ((13, 2000) ∷ (14, 1000) ∷ [])
        ≡ None }
    ensures out_of_turn { publish_fault on_first 2 1719864000 ((24, 500) ∷ [])
        1719864000 ≡ Some (SheetOutOfTurn 1719864000 1) }
    ensures incomplete { publish_fault on_first 1 1719864000 [] 0
        ≡ Some (SheetIncomplete 14) }
    ensures too_soon { publish_fault on_first 1 1719864000 ((14, 1000) ∷ []) 1719863999
        ≡ Some (TooSoon 1719864000) }
    ensures in_time { publish_fault on_first 1 1719864000 ((14, 1000) ∷ []) 1719864000
        ≡ None }
{}

/// An order received at a pricing moment gets the next price, and one of two classes the first sheet that lists both.
pub fn orders_get_the_next_price()
    ensures before { next_sheet sheets_of_july (14 ∷ []) 1719863999 ≡ Some first_sheet }
    ensures at { next_sheet sheets_of_july (14 ∷ []) 1719864000 ≡ Some second_sheet }
    ensures both { next_sheet sheets_of_july (13 ∷ 14 ∷ []) 0 ≡ Some second_sheet }
    ensures pending { next_sheet sheets_of_july (14 ∷ []) 1719950400 ≡ None }
    ensures number { number_at sheets_of_july 1 1719950400 ≡ Some 3 }
{}

/// A correction changes one net asset value on one sheet; the last price before a sheet doesn't look at that sheet.
pub fn corrections_change_one_price()
    ensures price { price_on (sheets_with_nav 14 1 900 sheets_of_july) 1 14 ≡ Some 900 }
    ensures other_sheet { price_on (sheets_with_nav 14 1 900 sheets_of_july) 3 14 ≡ Some 1100 }
    ensures other_class { price_on (sheets_with_nav 14 3 900 sheets_of_july) 3 13 ≡ Some 2000 }
    ensures none { price_on (sheets_with_nav 13 1 900 sheets_of_july) 1 13 ≡ None }
    ensures last { price_before sheets_of_july 14 1719950400 ≡ Some 1000 }
    ensures first { price_before sheets_of_july 14 1719864000 ≡ None }
    ensures trial { price_before (sheets_on_trial (Some
        (record { class = 14; sheet = 1; nav = 900 })) sheets_of_july) 14 1719950400 ≡ Some 900 }
{}
