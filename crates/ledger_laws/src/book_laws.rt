//! Laws of books that a household's steps can meet, and of the tables of facts that give one.
ghost use Rattle.agent_events.specs.Events.{Event};
ghost use Rattle.agent_events.specs.declared.verdict.Caller.{Caller};
ghost use Rattle.household_fold.specs.Facts.{Known};
ghost use Rattle.register_machine.specs.journal.Journals.{Journal};
ghost use Rattle.register_machine.specs.pricing.CorrectedBook.{Book};
ghost use Rattle.ledger_laws.specs.SoundBooks.{LawfulHasASoundBook, TablesGiveFacts};
ghost use Rattle.ledger_laws.specs.TrialBooks.{LawfulTrialIsSound};

/// The book of a lawful journal is sound: orderly, with orders and sheets that name classes of it, and sheets whose moments are in
/// range.
#[tactic(auto, using(crate::proofs::SoundBooks::has_a_sound_book))]
pub fn lawful_journals_have_a_sound_book()
    ensures { (journal : Journal) → LawfulHasASoundBook journal }
{}

/// Where none of the rules before the last one refuses a correction of a lawful journal, its book on trial is sound, whatever the
/// correction breaks: it is the journal's book, gone on by the correction.
pub fn corrections_on_trial_have_a_sound_book()
    ensures { (journal : Journal) (event : Event) (caller : Caller)
        → LawfulTrialIsSound journal event caller }
{}

/// Tables that have the sheets of a book, numbered from 1 on, and by number the terms of its classes, the households of its
/// accounts and its rates are the facts of the book.
pub fn tables_that_agree_are_facts()
    ensures { (known : Known) (book : Book) → TablesGiveFacts known book }
{}
