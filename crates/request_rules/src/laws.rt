//! The rules of each verb are those of the machine.
ghost use Rattle.std.specs.Prelude.{◌≡◌};
ghost use Rattle.agent_events.specs.declared.request.Request.{Request};
ghost use Rattle.register_machine.specs.journal.Choices.{first_some};
ghost use Rattle.register_machine.specs.rules.InOrder.{broken_rule};
ghost use Rattle.register_machine.specs.rules.Situations.{Situation};
ghost use Rattle.request_rules.specs.VerbRules.{rules_of};

/// The first rule behind the repeat that a request breaks is the first one of its own verb's: the others say nothing of it.
#[tactic(auto, using(crate::proofs::RulesByVerb::rule_by_verb))]
pub fn rules_go_by_verb()
    ensures { (situation : Situation) (request : Request)
        → broken_rule situation request ≡ first_some (rules_of situation request) }
{}
