//! Loads as worked examples, as laws: the checker computes each.
ghost use Rattle.std.specs.Prelude.{◌≡◌, ◌++◌, ◌∷◌, [], codes};
ghost use Rattle.load_requests.specs.Days.{correction_on, pricing_moment, size_of};
ghost use Rattle.load_requests.specs.Draws.{draw_of, next_state};
ghost use Rattle.load_requests.specs.Requests.{requests_of};
ghost use Rattle.load_requests.specs.Summaries.{load_summary, summary_lines};
ghost use Rattle.load_requests.specs.WorkedLoads.{one_household_over, opening_of_one, first_order, first_sheet};

/// The first draw from the number 1: it buys class 12 for 793 dollars.
pub fn first_draw()
    ensures state { next_state 1 ≡ 7806831264735756412 }
    ensures draw { draw_of 7806831264735756412 ≡ 908834774 }
    ensures size { size_of 908834774 ≡ 693 }
{}

/// The pricing moments: Tuesday 2024-01-02 16:00 in New York, the day after, and Monday behind the
/// first weekend.
pub fn first_moments()
    ensures tuesday { pricing_moment 1 ≡ 1704229200 }
    ensures wednesday { pricing_moment 2 ≡ 1704315600 }
    ensures monday { pricing_moment 5 ≡ 1704747600 }
{}

/// The first correction raises class 11 from 10.35 to 10.36 on the sheet of the fifth day.
pub fn first_correction()
    ensures moment { (correction_on 10).moment ≡ 1704747600 }
    ensures nav { (correction_on 10).nav ≡ 1036 }
{}

/// The requests of a load of one household over no day.
pub fn load_without_days()
    ensures { requests_of (one_household_over 0) ≡ opening_of_one }
{}

/// The requests of a load of one household over one day.
pub fn load_of_one_day()
    ensures { requests_of (one_household_over 1)
        ≡ opening_of_one ++ first_order ∷ first_sheet ∷ [] }
{}

/// The summary of a load of one household over no day.
pub fn summary_without_days()
    ensures { summary_lines (load_summary (one_household_over 0))
        ≡ codes "events 5" ∷ codes "sheets 0" ∷ codes "refused 0" ∷ codes "filled 0"
        ∷ codes "unfilled 0" ∷ codes "class 11 shares 0.000 cash 0.00"
        ∷ codes "class 12 shares 0.000 cash 0.00" ∷ [] }
{}

/// The summary of a load of one household over one day: 793 dollars of class 12 at 20.11 are 39.433
/// shares.
pub fn summary_of_one_day()
    ensures { summary_lines (load_summary (one_household_over 1))
        ≡ codes "events 7" ∷ codes "sheets 1" ∷ codes "refused 0" ∷ codes "filled 1"
        ∷ codes "unfilled 0" ∷ codes "class 11 shares 0.000 cash 0.00"
        ∷ codes "class 12 shares 39.433 cash 793.00" ∷ [] }
{}

/// The summary of a load of five households over twelve days.
pub fn summary_of_twelve_days()
    ensures { summary_lines (load_summary (record { number = 3; households = 5; days = 12 }))
        ≡ codes "events 86" ∷ codes "sheets 12" ∷ codes "refused 0" ∷ codes "filled 48"
        ∷ codes "unfilled 12" ∷ codes "class 11 shares 1257.388 cash 13226.54"
        ∷ codes "class 12 shares 316.980 cash 6489.00" ∷ [] }
{}
