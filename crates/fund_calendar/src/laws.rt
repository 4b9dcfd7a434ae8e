//! Laws of dates in the trade's words. Each function is empty: its clauses hold of the definitions.
ghost use Rattle.std.specs.Prelude.{◌≡◌, ℕ, ◌<◌, ◌≤◌, true, false};
ghost use Rattle.fund_calendar.specs.Dates.{last_day, has_anniversary, anniversaries};

/// On a later day never fewer anniversaries of a purchase have come.
pub fn anniversaries_never_become_fewer()
    ensures { (bought : ℕ) (on : ℕ) (later : ℕ) → on ≤ later → later ≤ last_day
        → anniversaries bought on ≤ anniversaries bought later }
{}

/// How many anniversaries have come on a day is their number: from the first up to it each has come, and none behind it.
pub fn as_many_anniversaries_have_come()
    ensures come { (bought on nth : ℕ) → bought ≤ last_day → on ≤ last_day
        → 1 ≤ nth → nth ≤ anniversaries bought on → has_anniversary bought nth on ≡ true }
    ensures to_come { (bought on nth : ℕ) → bought ≤ last_day → on ≤ last_day
        → anniversaries bought on < nth → has_anniversary bought nth on ≡ false }
{}
