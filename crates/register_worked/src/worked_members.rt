//! Worked members of JSON objects, as laws: they ask what the fields of a script ask.
ghost use Rattle.std.specs.Prelude.{◌≡◌, [], ◌∷◌, codes, Err, true, false};
ghost use Rattle.agent_events.specs.Items.{asked_by};
ghost use Rattle.agent_events.specs.JsonForms.{asked_by_members};
ghost use Rattle.agent_events.specs.declared.order.Body.{Body};
ghost use Rattle.register_worked.specs.WorkedMembers.{AskTheSame, asks_for, lead, member};

/// Members in any order ask what the record of a script asks; a missing one has its place, and another name is place 0.
pub fn members_of_a_purchase()
    ensures same { asked_by_members (codes "buy") (
        member (codes "gross") (codes "10000.00") ∷ member (codes "account") (codes "101")
        ∷ member (codes "ref") (codes "1") ∷ member (codes "class") (codes "11") ∷ []
        )
        ≡ asked_by (codes "buy") (codes "101" ∷ codes "1" ∷ codes "11" ∷ codes "10000.00" ∷ []) }
    ensures missing { asked_by_members (codes "buy")
        (member (codes "account") (codes "101") ∷ member (codes "ref") (codes "1")
        ∷ member (codes "gross") (codes "1.00") ∷ []) ≡ Err 3 }
    ensures unknown { asked_by_members (codes "buy")
        (member (codes "account") (codes "101") ∷ member (codes "to") (codes "11") ∷ []) ≡ Err 0 }
    ensures no_verb { asked_by_members (codes "fly") [] ≡ Err 0 }
{}

/// Where a correction's order verb is missing, other members are passed over and the verb has its place.
pub fn members_of_an_entry()
    ensures same { asked_by_members (codes "enter") (
        member (codes "fix") (codes "1") ∷ member (codes "bearer") (codes "fund")
        ∷ member (codes "receipt") (codes "1719838800") ∷ member (codes "verb") (codes "sellall")
        ∷ member (codes "account") (codes "101") ∷ member (codes "ref") (codes "1")
        ∷ member (codes "class") (codes "11") ∷ []
        )
        ≡ asked_by (codes "enter") (
        codes "1" ∷ codes "fund" ∷ codes "1719838800" ∷ codes "sellall"
        ∷ codes "101" ∷ codes "1" ∷ codes "11" ∷ []
        ) }
    ensures missing { asked_by_members (codes "enter") (
        member (codes "fix") (codes "1") ∷ member (codes "bearer") (codes "fund")
        ∷ member (codes "receipt") (codes "1719838800") ∷ member (codes "colour") (codes "red") ∷ []
        )
        ≡ Err 4 }
{}

/// A redemption of shares has `shares`, one of an amount `amount`, and one of all neither.
pub fn members_of_redemptions()
    ensures sell { asked_by_members (codes "sell") (member (codes "shares") (codes "5.000") ∷ lead)
        ≡ asks_for (Body.Sell 11 5000) }
    ensures sellcash { asked_by_members (codes "sellcash")
        (member (codes "amount") (codes "50.00") ∷ lead)
        ≡ asks_for (Body.SellCash 11 5000) }
    ensures sellall { asked_by_members (codes "sellall") lead
        ≡ asks_for (Body.SellAll 11) }
    ensures not_an_amount { asked_by_members (codes "sell")
        (member (codes "amount") (codes "50.00") ∷ lead) ≡ Err 0 }
    ensures not_shares { asked_by_members (codes "sellcash")
        (member (codes "shares") (codes "5.000") ∷ lead) ≡ Err 0 }
    ensures not_of_all { asked_by_members (codes "sellall")
        (member (codes "shares") (codes "5.000") ∷ lead) ≡ Err 0 }
    ensures missing { asked_by_members (codes "sell") lead ≡ Err 4 }
{}

/// An exchange has the class that it goes `to`, and `shares` where not all go.
pub fn members_of_exchanges()
    ensures exchange { asked_by_members (codes "exchange")
        (member (codes "shares") (codes "5.000") ∷ member (codes "to") (codes "13") ∷ lead)
        ≡ asks_for (Body.Exchange 11 13 5000) }
    ensures exchangeall { asked_by_members (codes "exchangeall")
        (member (codes "to") (codes "13") ∷ lead)
        ≡ asks_for (Body.ExchangeAll 11 13) }
    ensures without_shares { asked_by_members (codes "exchange")
        (member (codes "to") (codes "13") ∷ lead) ≡ Err 5 }
    ensures without_target { asked_by_members (codes "exchange")
        (member (codes "shares") (codes "5.000") ∷ lead) ≡ Err 4 }
    ensures not_of_all { asked_by_members (codes "exchangeall")
        (member (codes "shares") (codes "5.000") ∷ member (codes "to") (codes "13") ∷ lead)
        ≡ Err 0 }
{}

/// A letter has an `amount`, and an election says how to `pay`.
pub fn members_of_letters_and_elections()
    ensures letter { asked_by_members (codes "letter")
        (member (codes "amount") (codes "50000.00") ∷ lead)
        ≡ asks_for (Body.Letter 11 5000000) }
    ensures cash { asked_by_members (codes "elect") (member (codes "pay") (codes "cash") ∷ lead)
        ≡ asks_for (Body.Elect 11 true) }
    ensures shares { asked_by_members (codes "elect") (member (codes "pay") (codes "shares") ∷ lead)
        ≡ asks_for (Body.Elect 11 false) }
    ensures not_a_gross { asked_by_members (codes "letter")
        (member (codes "gross") (codes "50000.00") ∷ lead) ≡ Err 0 }
    ensures without_pay { asked_by_members (codes "elect") lead ≡ Err 4 }
{}

/// Where a name stands twice the last member counts.
pub fn member_that_stands_twice()
    ensures { asked_by_members (codes "buy")
        (member (codes "gross") (codes "1.00") ∷ member (codes "gross") (codes "2.00") ∷ lead)
        ≡ asks_for (Body.Buy 11 200) }
{}

/// A cancel, and what the operator sends of corrections: the members ask what the fields ask.
pub fn members_of_corrections()
    ensures cancel { AskTheSame (codes "cancel") (
        member (codes "account") (codes "101") ∷ member (codes "ref") (codes "2")
        ∷ member (codes "target") (codes "1") ∷ []
        ) }
    ensures fixprice { AskTheSame (codes "fixprice") (
        member (codes "fix") (codes "1") ∷ member (codes "bearer") (codes "dealer:5")
        ∷ member (codes "class") (codes "12") ∷ member (codes "moment") (codes "1719864000")
        ∷ member (codes "nav") (codes "10.50") ∷ []
        ) }
    ensures fixrate { AskTheSame (codes "fixrate") (
        member (codes "fix") (codes "1") ∷ member (codes "bearer") (codes "agent")
        ∷ member (codes "class") (codes "12") ∷ member (codes "moment") (codes "1719864000")
        ∷ member (codes "rate") (codes "0.000000") ∷ []
        ) }
    ensures void { AskTheSame (codes "void") (
        member (codes "fix") (codes "1") ∷ member (codes "bearer") (codes "fund")
        ∷ member (codes "account") (codes "101") ∷ member (codes "ref") (codes "1") ∷ []
        ) }
    ensures enter { AskTheSame (codes "enter") (
        member (codes "fix") (codes "1") ∷ member (codes "bearer") (codes "fund")
        ∷ member (codes "receipt") (codes "1719838800")
        ∷ member (codes "verb") (codes "exchange") ∷ member (codes "account") (codes "101")
        ∷ member (codes "ref") (codes "1") ∷ member (codes "class") (codes "12")
        ∷ member (codes "to") (codes "13") ∷ member (codes "shares") (codes "5.000") ∷ []
        ) }
    ensures replace { AskTheSame (codes "replace") (
        member (codes "fix") (codes "1") ∷ member (codes "bearer") (codes "fund")
        ∷ member (codes "receipt") (codes "1719838800") ∷ member (codes "verb") (codes "elect")
        ∷ member (codes "account") (codes "101") ∷ member (codes "ref") (codes "1")
        ∷ member (codes "class") (codes "12") ∷ member (codes "pay") (codes "cash") ∷ []
        ) }
{}

/// And of calendars, classes, dealers, households, accounts, sheets and dividends.
pub fn members_of_the_funds()
    ensures calendar { AskTheSame (codes "calendar") (
        member (codes "calendar") (codes "1")
        ∷ member (codes "zone") (codes "EST5EDT,M3.2.0,M11.1.0")
        ∷ member (codes "time") (codes "16:00") ∷ member (codes "first") (codes "2024-01-01")
        ∷ member (codes "last") (codes "2026-12-31")
        ∷ member (codes "holidays") (codes "2024-07-04") ∷ []
        ) }
    ensures close { AskTheSame (codes "close") (
        member (codes "calendar") (codes "1") ∷ member (codes "date") (codes "2024-07-05") ∷ []
        ) }
    ensures class { AskTheSame (codes "class") (
        member (codes "class") (codes "12") ∷ member (codes "calendar") (codes "1")
        ∷ member (codes "fund") (codes "1") ∷ member (codes "name") (codes "GROWTH-B")
        ∷ member (codes "family") (codes "7") ∷ member (codes "counts") (codes "1")
        ∷ member (codes "first_min") (codes "250.00")
        ∷ member (codes "later_min") (codes "50.00")
        ∷ member (codes "front") (codes "0.00:575 25000.00:500")
        ∷ member (codes "deferred") (codes "500 400") ∷ []
        ) }
    ensures dealer { AskTheSame (codes "dealer") (
        member (codes "dealer") (codes "5") ∷ member (codes "key") (codes "d-broker00005")
        ∷ member (codes "window") (codes "21600") ∷ []
        ) }
    ensures household { AskTheSame (codes "household") (
        member (codes "household") (codes "1") ∷ member (codes "key") (codes "h-mary000001") ∷ []
        ) }
    ensures account { AskTheSame (codes "account") (
        member (codes "account") (codes "101") ∷ member (codes "household") (codes "1")
        ∷ member (codes "dealer") (codes "0") ∷ member (codes "name") (codes "MARY DOE") ∷ []
        ) }
    ensures sheet { AskTheSame (codes "sheet") (
        member (codes "calendar") (codes "1") ∷ member (codes "moment") (codes "1719864000")
        ∷ member (codes "prices") (codes "11:10.00 12:10.00") ∷ []
        ) }
    ensures dividend { AskTheSame (codes "dividend") (
        member (codes "class") (codes "12") ∷ member (codes "moment") (codes "1719864000")
        ∷ member (codes "rate") (codes "0.120000") ∷ []
        ) }
{}
