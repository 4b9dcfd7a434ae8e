//! A correction makes the states that are kept behind the sheets which it touches those of another past: they are forgotten.
ghost use Rattle.desk_books.specs.Settled.{AreBefore};

use checkpoint_replay::KeptStates;

/// Forgets the states of these households behind this sheet and later ones.
pub(crate) fn forget_all(kept: &mut KeptStates, households: &[u32], before: u32)
    ensures { AreBefore households.now before kept.old kept.new }
{
    for household in households {
        kept.forget_from(*household, before);
    }
}
