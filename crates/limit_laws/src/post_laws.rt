//! Laws of posts: the changes between two replays and the gains of a correction fit a post, and what is booked fits its type.
ghost use Rattle.agent_events.specs.Events.{Event};
ghost use Rattle.agent_events.specs.declared.totals.Changes.{Changes};
ghost use Rattle.gain_loss_book.specs.declared.tally.Tally.{Tally};
ghost use Rattle.register_machine.specs.journal.Journals.{Journal, with_event};
ghost use Rattle.register_machine.specs.journal.Lawful.{IsLawful};
ghost use Rattle.register_machine.specs.replay.Trades.{Day};
ghost use Rattle.limit_laws.specs.Posts.{DifferencesFit, EventFitsPost, InFormBooksFit, TallyNamesEachOnce};

/// The rows that a tally makes of what it took in name each party and each class once.
#[tactic(auto, using(crate::proofs::TallyRows::tally_names_each_once))]
pub fn tallies_name_each_once()
    ensures { (tally : Tally) → TallyNamesEachOnce tally }
{}

/// Changes that name each party and each class once, and are the differences of two days whose trades move little, fit a post:
/// in size they add up to at most 2 * 10^28 cents and 6 * 10^25 mils.
#[tactic(auto, using(crate::proofs::ChangesFit::differences_fit))]
pub fn differences_fit_a_post()
    ensures { (changes : Changes) (before after : Day) → DifferencesFit changes before after }
{}

/// So do the changes that an event of a lawful journal makes, a sheet or a correction, whatever the events before it, where all
/// of them are in their forms; and the gains of a correction add up to at most 10^30 cents in size.
#[tactic(auto, using(crate::proofs::PostsFit::event_fits_post))]
pub fn events_of_lawful_journals_fit_a_post()
    ensures { (journal : Journal) (event : Event)
        → IsLawful (with_event journal event) → EventFitsPost journal event }
{}

/// So what a party received and what it paid by all that is booked behind such a journal, its trades and the payments of its
/// corrections, are each less than 2^127.
#[tactic(auto, using(crate::proofs::PostsFit::in_form_books_fit))]
pub fn what_is_booked_fits_128_bits()
    ensures { (journal : Journal) → IsLawful journal → InFormBooksFit journal }
{}
