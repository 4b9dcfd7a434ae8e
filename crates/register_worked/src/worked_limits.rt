//! Worked scripts of limits: how many of a kind there may be.
ghost use Rattle.std.specs.Prelude.{◌≡◌, [], ◌∷◌, ◌++◌, None, Some, codes};
ghost use Rattle.agent_events.specs.declared.event.EventKind.{EventKind};
ghost use Rattle.agent_events.specs.declared.reply.Refusal.{Refusal};
ghost use Rattle.agent_events.specs.declared.reply.Refusal.TheVariants as Refusal;
ghost use Rattle.agent_events.specs.declared.request.Request.{Request};
ghost use Rattle.register_machine.specs.rules.Limits.{too_many};
ghost use Rattle.register_worked.specs.WorkedRuns.{AnswersAlone, account_answers, account_items, calendar_answers, calendar_items, situation_behind_many, some_class, some_dealer, some_household};

/// A household has 64 accounts and no 65th; those of another household don't count.
pub fn accounts_of_a_household()
    ensures { AnswersAlone (
        codes "1719835200,op-desk000001,household,2,h-omar000002"
        ∷ codes "1719835200,op-desk000001,account,9,2,0,OMAR ROE"
        ∷ codes "1719835200,op-desk000001,household,1,h-mary000001"
        ∷ account_items 65
        ++ codes "1719835200,op-desk000001,account,165,2,0,OMAR ROE 2"
        ∷ []
        ) (
        codes "ok,household,2"
        ∷ codes "ok,account,9"
        ∷ codes "ok,household,1"
        ∷ account_answers 64
        ++ codes "no,17,64"
        ∷ codes "ok,account,165"
        ∷ []
        ) }
{}

/// In a household that is full an account with a number that is taken is refused by that number, one that stands is a
/// repeat, and one whose dealer is absent is refused for that.
pub fn account_taken_in_a_full_household()
    ensures { AnswersAlone (
        codes "1719835200,op-desk000001,household,1,h-mary000001"
        ∷ account_items 64
        ++ codes "1719835200,op-desk000001,account,164,1,0,MARY DOE"
        ∷ codes "1719835200,op-desk000001,account,164,1,0,MARY DOE 64"
        ∷ codes "1719835200,op-desk000001,account,165,1,0,MARY DOE"
        ∷ codes "1719835200,op-desk000001,account,165,1,9,MARY DOE"
        ∷ []
        ) (
        codes "ok,household,1"
        ∷ account_answers 64
        ++ codes "no,14,164"
        ∷ codes "ok,account,164"
        ∷ codes "no,17,64"
        ∷ codes "no,3,3"
        ∷ []
        ) }
{}

/// There are 16 calendars and no 17th.
pub fn calendars_up_to_the_limit()
    ensures { AnswersAlone (calendar_items 17) (calendar_answers 16 ++ codes "no,17,16" ∷ []) }
{}

/// There are 1,000 classes and 1,000 dealers, and none more.
pub fn classes_and_dealers_up_to_the_limit()
    ensures classes { too_many
        (situation_behind_many (EventKind.Class some_class) 1000) (Request.Class some_class)
        ≡ Some (Refusal.TooMany 1000) }
    ensures class_room { too_many
        (situation_behind_many (EventKind.Class some_class) 999) (Request.Class some_class)
        ≡ None }
    ensures dealers { too_many
        (situation_behind_many (EventKind.Dealer some_dealer) 1000) (Request.Dealer some_dealer)
        ≡ Some (Refusal.TooMany 1000) }
    ensures dealer_room { too_many
        (situation_behind_many (EventKind.Dealer some_dealer) 999) (Request.Dealer some_dealer)
        ≡ None }
{}

/// There are 100,000 households, and none more.
pub fn households_up_to_the_limit()
    ensures households { too_many
        (situation_behind_many (EventKind.Household some_household) 100000)
        (Request.Household some_household)
        ≡ Some (Refusal.TooMany 100000) }
    ensures household_room { too_many
        (situation_behind_many (EventKind.Household some_household) 99999)
        (Request.Household some_household)
        ≡ None }
{}
