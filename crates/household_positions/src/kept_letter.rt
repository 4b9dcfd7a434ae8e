//! An open letter of intent beside a position that a register keeps.
ghost use Rattle.std.specs.Prelude.{◌≡◌, IfOk};

use letter_of_intent::Letter;
use money_units::NoMemory;
use std::alloc::Global;
use std::marker::Model;

/// The open letter of a position, where it has one. Few have, so it lies in memory of its own, and the others are so much smaller.
#[derive(Debug, Drop)]
pub(crate) struct KeptLetter {
    letter: Option<Box<Letter>>,
}

impl Model for KeptLetter {
    ghost use Rattle.std.specs.Prelude.{Option, option_map};
    ghost use Rattle.letter_of_intent.specs.declared.letter.Letter.{Letter as opened};

    ghost Value = { Option opened };

    ghost view = { λ kept. option_map (λ letter. letter.value) kept.letter };
}

impl KeptLetter {
    /// A letter as it is kept.
    pub(crate) fn keep(alloc: Global, letter: Option<Letter>) -> Result<KeptLetter, NoMemory>
        ensures { IfOk result (λ kept. kept ≡ letter) }
    {
        match letter {
            Some(letter) => {
                let letter = Box::new(alloc, letter)?;
                Ok(KeptLetter {
                    letter: Some(letter),
                })
            }
            None => Ok(KeptLetter { letter: None }),
        }
    }

    /// The letter.
    pub(crate) fn letter(&self) -> Option<Letter>
        ensures { result ≡ self.now }
    {
        match &self.letter {
            Some(letter) => Some(**letter),
            None => None,
        }
    }
}
