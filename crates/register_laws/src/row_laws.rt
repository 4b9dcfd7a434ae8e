//! Laws of stored rows: which events fit one.
ghost use Rattle.std.specs.Prelude.{ℕ, Bool, List};
ghost use Rattle.agent_events.specs.declared.request.Request.{Request};
ghost use Rattle.register_machine.specs.journal.Journals.{Journal};
ghost use Rattle.register_machine.specs.rules.Situations.{Situation};
ghost use Rattle.register_laws.specs.RowForms.{ReadsListForms, BringsListForms, LawfulFitsRows, ScriptFitsRows};

/// Whatever is read by its verb, and every line of a batch, has its lists in their forms: at most 3,660 holidays, and a sheet's
/// prices by rising class.
pub fn requests_are_read_with_their_list_forms()
    ensures { (verb : List ℕ) (fields : List (List ℕ)) → ReadsListForms verb fields }
{}

/// What such a request brings has them too.
#[tactic(auto, using(crate::proofs::RowsFit::brings_list_forms))]
pub fn events_have_the_list_forms_of_their_requests()
    ensures { (situation : Situation) (request : Request) → BringsListForms situation request }
{}

/// A lawful journal whose events have their lists in their forms fits stored rows, whose lists have at most 65,535 items.
#[tactic(auto, using(crate::proofs::RowsFit::fits_rows))]
pub fn lawful_journals_fit_rows()
    ensures { (journal : Journal) → LawfulFitsRows journal }
{}

/// And so does the journal of every script's run.
#[tactic(auto, using(crate::proofs::RowsFit::script_fits_rows))]
pub fn journals_of_scripts_fit_rows()
    ensures { (operator script : List ℕ)
        → ScriptFitsRows operator script }
{}
