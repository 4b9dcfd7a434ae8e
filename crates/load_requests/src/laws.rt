//! Laws of loads. Each function is empty: its clauses hold of the definitions.
ghost use Rattle.std.specs.Prelude.{◌≡◌, ◌≤◌, ◌<◌, ◌+◌, ◌*◌, ◌/◌, ◌++◌, [], ◌∷◌, ℕ, List, Some};
ghost use Rattle.std.specs.Prelude.{length, option_map, slice_get};
ghost use Rattle.register_machine.specs.journal.Journals.{last_moment};
ghost use Rattle.load_requests.specs.Days.{pricing_moment};
ghost use Rattle.load_requests.specs.Opening.{load_listing};
ghost use Rattle.load_requests.specs.Requests.{requests_of};
ghost use Rattle.load_requests.specs.Runs.{NeverFall, answer_to, first_run, run_after, run_over};
ghost use Rattle.load_requests.specs.declared.load.Load.{Load};
ghost use Rattle.load_requests.specs.declared.load.Sent.{Sent};

/// Each day of a load has a pricing moment of its own: that at its place of the listing, whose
/// first day, at place 0, lies before the opening. Two pricing moments lie two hours or more apart,
/// so that a day's sheet comes before the next day's orders.
pub fn each_day_has_its_pricing_moment()
    ensures listed { (day : ℕ) → 1 ≤ day → day ≤ 2000
        → option_map (λ e. e.moment) (slice_get load_listing.days day) ≡ Some (pricing_moment day) }
    ensures apart { (day : ℕ) → day < 2000 → pricing_moment day + 7200 ≤ pricing_moment (day + 1) }
{}

/// No request of a load comes before the one before it.
pub fn requests_never_step_back()
    ensures { (load : Load) → load.days ≤ 2000 → NeverFall 0 (requests_of load) }
{}

/// No request of a load comes before the last moment of the journal that the requests before it
/// made.
pub fn each_request_is_in_time()
    ensures { (load : Load) (before : List Sent) (sent : Sent) (later : List Sent)
        → load.days ≤ 2000 → requests_of load ≡ before ++ sent ∷ later
        → last_moment (run_over before).journal ≤ sent.moment }
{}

/// A load has a calendar, two classes, and a household and an account for each of its households;
/// then each day an order of every household and a sheet, and on every tenth day a correction.
#[tactic(auto, using(crate::proofs::CountFacts::count_requests))]
pub fn a_load_has_so_many_requests()
    ensures { (load : Load) → length (requests_of load)
        ≡ 3 + 2 * load.households + load.days * (load.households + 1) + load.days / 10 }
{}

/// A run begins with the empty journal, and goes on with the machine's answer to each request in
/// turn.
#[tactic(auto, using(crate::proofs::CountFacts::run_begins, crate::proofs::CountFacts::run_goes_on))]
pub fn a_run_goes_on_by_answers()
    ensures begins { run_over [] ≡ first_run }
    ensures goes_on { (before : List Sent) (sent : Sent) → run_over (before ++ sent ∷ [])
        ≡ run_after (run_over before) (answer_to (run_over before).journal sent) }
{}
