//! What the definition of a run over a connection means.
ghost use Rattle.std.specs.Prelude.{◌≡◌, ◌≤◌, ◌<◌, ◌++◌, Bool, List, length, ℕ};
ghost use Rattle.agent_events.specs.VerbForms.{Asked};
ghost use Rattle.agent_events.specs.declared.request.Request.{Request};
ghost use Rattle.connection_service.specs.Answers.{Answers, At};
ghost use Rattle.connection_service.specs.Requests.{Asks, IsAnsweredInView, IsRuledBehind, IsRuledOrUnkept, SaysUnkept};
ghost use Rattle.connection_service.specs.Runs.{Run};
ghost use Rattle.agent_http.specs.Calls.{ends, item_key};
ghost use Rattle.http_stream.specs.Stream.{Items, Stream, StreamItem};
ghost use Rattle.register_laws.specs.Isolation.{IsAskedOf};
ghost use Rattle.register_machine.specs.journal.Journals.{Journal};
ghost use Rattle.register_machine.specs.journal.Lawful.{IsLawful};
ghost use Rattle.register_machine.specs.rules.Situations.{Situation};

/// A run has a text for each of the first items of its stream, in order; so in whatever pieces the bytes came, its items are those of
/// the whole stream.
pub fn runs_answer_the_items_of_the_stream()
    ensures { (operator : List ℕ) (stream : Stream) (opened : At) (left : Stream) (at : At)
        (texts : List (List ℕ))
        → Run operator stream opened left at texts
        → (items : List StreamItem) × Items ends stream items left × (length items ≡ length texts) }
{}

/// A run only appends to the journal, and the clock never falls in it.
pub fn runs_go_on()
    ensures journal { (operator : List ℕ) (stream : Stream) (opened : At) (left : Stream)
        (at : At) (texts : List (List ℕ))
        → Run operator stream opened left at texts
        → (more : Journal) × (at.kept.journal ≡ opened.kept.journal ++ more) }
    ensures clock { (operator : List ℕ) (stream : Stream) (opened : At) (left : Stream) (at : At)
        (texts : List (List ℕ))
        → Run operator stream opened left at texts → opened.clock.last ≤ at.clock.last }
{}

/// A request that breaks no rule is accepted: its reply is no refusal, and its event is kept. One that breaks some is refused by the
/// first, and nothing is kept. In the place of either reply stands only a 503 or a 507.
pub fn requests_that_break_no_rule_are_accepted()
    ensures { (operator : List ℕ) (item : StreamItem) (request : Request) (last : Bool) (old : At)
        (bytes : List ℕ) (new : At)
        → Asks item request → Answers operator item last old bytes new
        → IsRuledOrUnkept operator (item_key item) last request old bytes new }
{
    register_laws::answer_laws::requests_are_refused_by_the_first_rule_broken();
    register_laws::answer_laws::requests_that_break_no_rule_bring_their_event();
}

/// A line of a batch is answered behind those before it as a request by itself would be: where it breaks no rule its event is among
/// those that the batch keeps, and its reply, which is no refusal, among the batch's; where it breaks some it is refused by the
/// first, and brings nothing.
pub fn lines_that_break_no_rule_are_accepted()
    ensures { (situation : Situation) (front : List Asked) (request : Request)
        → IsRuledBehind situation front request }
{
    register_laws::answer_laws::requests_are_refused_by_the_first_rule_broken();
    register_laws::answer_laws::requests_that_break_no_rule_bring_their_event();
}

/// Behind a 503 or a 507, whatever the item, the journal is the one before. No reply of the register has such a text.
pub fn answers_503_and_507_keep_nothing()
    ensures { (operator : List ℕ) (item : StreamItem) (last : Bool) (old : At) (bytes : List ℕ)
        (new : At)
        → Answers operator item last old bytes new → SaysUnkept last bytes
        → new.kept.journal ≡ old.kept.journal }
{}

/// A run behind a lawful journal leaves it lawful, so each of its items is answered behind a lawful one.
pub fn runs_leave_journals_lawful()
    ensures { (operator : List ℕ) (stream : Stream) (opened : At) (left : Stream) (at : At)
        (texts : List (List ℕ))
        → IsLawful opened.kept.journal → Run operator stream opened left at texts
        → IsLawful at.kept.journal }
{
    register_laws::batch_laws::batches_leave_journals_lawful();
}

/// While the journal isn't full, an order, a cancel, a look at an account and a statement of a household are answered as from the
/// household's own view of the journal, whatever the key: with the reply that the machine gives there, and with the same event kept.
pub fn households_are_answered_from_their_views()
    ensures { (operator : List ℕ) (item : StreamItem) (request : Request) (household : ℕ)
        (last : Bool) (old : At) (bytes : List ℕ) (new : At)
        → IsLawful old.kept.journal → length old.kept.journal < 100000000
        → Asks item request → IsAskedOf old.kept.journal household request
        → Answers operator item last old bytes new
        → IsAnsweredInView household operator (item_key item) last request old bytes new }
{
    register_laws::household_laws::households_are_isolated();
}
