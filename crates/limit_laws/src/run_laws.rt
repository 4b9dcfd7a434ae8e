//! Laws of runs: what is read from a text is in its form, so every script's run stays within all limits.
ghost use Rattle.std.specs.Prelude.{ℕ, List};
ghost use Rattle.agent_events.specs.declared.request.Request.{Request};
ghost use Rattle.register_machine.specs.rules.Situations.{Situation};
ghost use Rattle.limit_laws.specs.Runs.{BringsInForm, ReadsInForm, ScriptStaysWithin};

/// Whatever is read by its verb, and every line of a batch, has the ranges of its fields: prices of a sheet that rise by class,
/// prices of at most 10^7 cents, rates of at most 10^9 millionths of a dollar, and letters of 1 to 10^12 cents.
pub fn requests_are_read_in_form()
    ensures { (verb : List ℕ) (fields : List (List ℕ)) → ReadsInForm verb fields }
{}

/// What such a request brings has them too.
#[tactic(auto, using(crate::proofs::RunsInForm::brings_in_form))]
pub fn events_have_the_form_of_their_requests()
    ensures { (situation : Situation) (request : Request) → BringsInForm situation request }
{}

/// So in every script's run all trades together move at most 5 * 10^27 cents, and what is booked of each party fits 128 bits.
pub fn journals_of_scripts_stay_within()
    ensures { (operator script : List ℕ) → ScriptStaysWithin operator script }
{}
