//! Laws of the machine's answers in the trade's words, proved of every situation and every request, and of every run.
ghost use Rattle.std.specs.Prelude.{ℕ, Bool, List, All};
ghost use Rattle.agent_events.specs.declared.reply.Refusal.{Refusal};
ghost use Rattle.agent_events.specs.declared.request.Request.{Request};
ghost use Rattle.agent_events.specs.Events.{Event};
ghost use Rattle.agent_events.specs.declared.item.ScriptItem.{ScriptItem};
ghost use Rattle.register_machine.specs.journal.Lawful.{IsLawful};
ghost use Rattle.register_machine.specs.pricing.CorrectedBook.{Book};
ghost use Rattle.register_machine.specs.replay.Replay.{priced_orders};
ghost use Rattle.register_machine.specs.rules.Situations.{Situation};
ghost use Rattle.register_machine.specs.run.Scripts.{Run, run_from, empty_run};
ghost use Rattle.register_laws.specs.Answers.{QueryAppendsNothing, RefusalAppendsNothing, RepeatsItsFirst, AppendsAtMostIt, SaysItsFirstReply, AnswersByTheJournal, KeepsItsTable, IsForwardPriced};

/// What a request appends is the one event that it brings, and that only where its caller has the right to it, its form is
/// good, no event before has its content, and no rule behind these is broken, the last one included.
#[tactic(auto, using(crate::proofs::AnswersByCases::appends_at_most_it))]
pub fn one_event_at_most()
    ensures { (situation : Situation) (request : Request) → AppendsAtMostIt situation request }
{}

/// A look at the register appends nothing.
#[tactic(auto, using(crate::proofs::AnswersByCases::query_appends_nothing))]
pub fn queries_append_nothing()
    ensures { (situation : Situation) (request : Request) → QueryAppendsNothing situation request }
{}

/// A repeat gets the reply of its first event and appends nothing.
#[tactic(auto, using(crate::proofs::AnswersByCases::repeats_its_first))]
pub fn repeats_act_once()
    ensures { (situation : Situation) (request : Request) (place : ℕ) (event : Event)
        → RepeatsItsFirst situation request place event }
{}

/// And that reply is the one of the answer that appended the event.
#[tactic(auto, using(crate::proofs::AnswersByCases::says_its_first_reply))]
pub fn first_replies_are_kept()
    ensures { (situation : Situation) (request : Request) (event : Event)
        → SaysItsFirstReply situation request event }
{}

/// A refused request appends nothing.
pub fn refusals_append_nothing()
    ensures { (situation : Situation) (request : Request) (refusal : Refusal)
        → RefusalAppendsNothing situation request refusal }
{}

/// The price table that a run carries is that of its journal.
#[tactic(auto, using(crate::proofs::Runs::run_keeps_its_table))]
pub fn runs_keep_their_table()
    ensures { (operator : List ℕ) (items : List ScriptItem)
        → KeepsItsTable (run_from operator empty_run items) }
{}

/// So an answer depends on the operator's key, the journal, the moment, the caller's key and the request alone.
#[tactic(auto, using(crate::proofs::Runs::answers_by_the_journal))]
pub fn answers_depend_on_the_journal()
    ensures { (operator : List ℕ) (run : Run) (now : ℕ) (key : List ℕ) (request : Request)
        → AnswersByTheJournal operator run now key request }
{}

/// The journal that a run made is lawful: each event is what the machine appends to the events before it, at its moment, for
/// the request that it answers, asked by the dealer that the account names, which stands in the journal, for a dealer's line
/// and by the operator for all else. So all laws of lawful journals hold of it.
#[tactic(auto, using(crate::proofs::RunsAreLawful::run_is_lawful))]
pub fn journals_of_runs_are_lawful()
    ensures { (operator : List ℕ) (items : List ScriptItem)
        → IsLawful (run_from operator empty_run items).journal }
{}

/// An order that has its sheet has the first price computed after its receipt (17 CFR 270.22c-1(a)).
#[tactic(auto, using(crate::proofs::ForwardPriced::orders_are_forward_priced))]
pub fn orders_are_forward_priced()
    ensures { (book : Book) → All (IsForwardPriced book.table.sheets) (priced_orders book) }
{}
