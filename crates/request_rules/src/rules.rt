//! Rules side by side: the first that is broken, and the first field that names something absent.
ghost use Rattle.std.specs.Prelude.{◌≡◌};
ghost use Rattle.request_rules.specs.VerbRules.{absent_among};
ghost use Rattle.register_machine.specs.journal.Choices.{first_some, when};

use agent_events::Refusal;

/// The first refusal among those of rules in their order.
pub(crate) fn first_broken(rules: &[Option<Refusal>]) -> Option<Refusal>
    ensures { result ≡ first_some rules.now }
{
    for rule in rules {
        if let Some(refusal) = rule {
            return Some(*refusal);
        }
    }
    None
}

/// A refusal where a condition holds.
pub fn refused_when(holds: bool, refusal: Refusal) -> Option<Refusal>
    ensures { result ≡ when holds refusal }
{
    if holds { Some(refusal) } else { None }
}

/// A field that names something: its place, and whether what it names is there.
pub(crate) type NamedThing = (u8, bool);

/// The refusal for the first field that names something absent.
pub(crate) fn first_absent(fields: &[NamedThing]) -> Option<Refusal>
    ensures { result ≡ absent_among fields.now }
{
    match fields.iter().find(|field| !field.1) {
        Some(field) => Some(Refusal::NoSuch(field.0)),
        None => None,
    }
}
