//! Laws of letters of intent in the trade's words. Each function is empty: its clauses hold of the definitions.
ghost use Rattle.std.specs.Prelude.{ℕ, ◌≡◌, ◌+◌, ◌-◌, ◌*◌, ◌<◌, ◌≤◌, true, false, List, None};
ghost use Rattle.class_terms.specs.Tables.{front_fault};
ghost use Rattle.class_terms.specs.declared.lists.Bracket.{Bracket};
ghost use Rattle.money_units.specs.Rounding.{half};
ghost use Rattle.offering_price.specs.Accumulation.{bracket};
ghost use Rattle.letter_of_intent.specs.Letters.{IsLetter, new_letter, mils_to_hold, after_purchase, has_expired, rate_earned, load_due, settlement};
ghost use Rattle.letter_of_intent.specs.Purchases.{Purchase, after_all, gross_total, mils_total, held_total};
ghost use Rattle.letter_of_intent.specs.Cases.{Event, Stands, Reached, Expired, fate, purchases_of, is_past};
ghost use Rattle.std.specs.List.{list_any};
ghost use Rattle.letter_of_intent.specs.declared.letter.Letter.{Letter};

use crate::letter::Letter;
use class_terms::Bracket;
use fund_calendar::Day;
use money_units::{Cents, Mils, Nav};

/// What a letter has bought is what the purchases under it paid together. It stays within its limits while that is less
/// than its amount, and its amount, day, credit and rate never change.
#[tactic(auto, using(crate::proofs::LetterFacts::bought_begun, crate::proofs::LetterFacts::bought_after_all, crate::proofs::LetterFacts::stays_after_all, crate::proofs::LetterFacts::same_after_all, crate::proofs::LetterFacts::held_within, crate::proofs::LetterFacts::rest_after_all))]
pub fn a_letter_counts_its_purchases()
    ensures from_its_beginning { (amount day start : ℕ) (front : List Bracket)
        (purchases : List Purchase)
        → (after_all (new_letter amount day start front) purchases).bought ≡ gross_total purchases }
    ensures bought { (letter : Letter) (purchases : List Purchase)
        → (after_all letter purchases).bought ≡ letter.bought + gross_total purchases }
    ensures stays { (letter : Letter) (purchases : List Purchase)
        → IsLetter letter
        → letter.bought + gross_total purchases < letter.amount
        → IsLetter (after_all letter purchases) }
    ensures same { (letter : Letter) (purchases : List Purchase)
        → after_all letter purchases
        ≡ record letter {
          rest = (after_all letter purchases).rest;
          bought = (after_all letter purchases).bought;
        } }
    ensures held { (letter : Letter) (purchases : List Purchase)
        → held_total letter purchases ≤ mils_total purchases }
    ensures rest_falls { (letter : Letter) (purchases : List Purchase)
        → (after_all letter purchases).rest ≤ letter.rest }
{}

/// Over all purchases of its account and class and all sheets of its calendar, a letter that stands is the one that
/// began with those purchases noted, within its limits. It ends reached only where they make its amount, and by date
/// only short of it, at a sheet past its months.
#[tactic(auto, using(crate::proofs::CaseFacts::stands_begun, crate::proofs::CaseFacts::stands_fate, crate::proofs::CaseFacts::limits_fate, crate::proofs::CaseFacts::reached_fate, crate::proofs::CaseFacts::expired_fate, crate::proofs::CaseFacts::short_fate))]
pub fn what_becomes_of_a_letter()
    ensures bought { (amount day start : ℕ) (front : List Bracket) (events : List Event)
        (now : Letter)
        → fate (new_letter amount day start front) events ≡ Stands now
        → now.bought ≡ gross_total (purchases_of events) }
    ensures stands { (letter : Letter) (events : List Event) (now : Letter)
        → fate letter events ≡ Stands now
        → now ≡ after_all letter (purchases_of events) }
    ensures limits { (letter : Letter) (events : List Event) (now : Letter)
        → IsLetter letter
        → fate letter events ≡ Stands now
        → IsLetter now }
    ensures reached { (letter : Letter) (events : List Event) (ended : Letter)
        → fate letter events ≡ Reached ended
        → ended.amount ≤ ended.bought }
    ensures expired { (letter : Letter) (events : List Event) (ended : Letter)
        → fate letter events ≡ Expired ended
        → list_any (is_past letter) events ≡ true }
    ensures short { (letter : Letter) (events : List Event) (ended : Letter)
        → IsLetter letter
        → fate letter events ≡ Expired ended
        → IsLetter ended }
{}

/// Without a sheet past its months a letter stands while its purchases make less than its amount, and is reached once
/// they make it.
#[tactic(auto, using(crate::proofs::CaseFacts::stands_short, crate::proofs::CaseFacts::reached_by))]
pub fn a_letter_ends_by_its_amount()
    ensures stands { (letter : Letter) (events : List Event)
        → list_any (is_past letter) events ≡ false
        → letter.bought + gross_total (purchases_of events) < letter.amount
        → fate letter events ≡ Stands (after_all letter (purchases_of events)) }
    ensures reached { (letter : Letter) (events : List Event)
        → list_any (is_past letter) events ≡ false
        → letter.bought < letter.amount
        → letter.amount ≤ letter.bought + gross_total (purchases_of events)
        → (ended : Letter) × (fate letter events ≡ Reached ended) }
{}

/// Shares are to be held for a twentieth of the amount, and for less than a cent more.
pub fn the_escrow_is_a_twentieth(amount: Cents, day: Day, start: u128, rows: &[Bracket])
    ensures covers { amount ≤ 20 * (new_letter amount day start rows.now).rest }
    ensures least { 20 * (new_letter amount day start rows.now).rest < amount + 20 }
{}

/// No more mils are held than were bought. What is left to hold never grows, and falls by no more than the held mils
/// cost. A lot that keeps loose mils covers all of it, by the least mils that do; and where nothing is left to hold,
/// none are.
pub fn the_escrow_is_held_once(letter: Letter, gross: Cents, price: Cents, mils: Mils)
    requires price { 1 ≤ price }
    ensures within { mils_to_hold letter price mils ≤ mils }
    ensures falls { (after_purchase letter gross price mils).rest ≤ letter.rest }
    ensures by_cost { 1000 * (letter.rest - (after_purchase letter gross price mils).rest)
        ≤ mils_to_hold letter price mils * price }
    ensures covers { mils_to_hold letter price mils < mils
        → (after_purchase letter gross price mils).rest ≡ 0 }
    ensures least { mils_to_hold letter price mils * price < 1000 * letter.rest + price }
    ensures nothing_left { letter.rest ≡ 0 → mils_to_hold letter price mils ≡ 0 }
{}

/// Once a letter has expired it has on each later day.
pub fn what_has_expired_stays_so(letter: Letter, day: Day, later: Day)
    requires expired { has_expired letter day ≡ true }
    requires order { day ≤ later }
    ensures { has_expired letter later ≡ true }
{}

/// What is due is paid or waived. No more mils are paid than are held, and what is paid is no more than they are worth.
/// Where some are left nothing is waived, and no mil is paid beyond what is due.
pub fn what_is_due_is_paid_or_waived(rows: &[Bracket], letter: Letter, nav: Nav, held: Mils)
    requires nav { 1 ≤ nav }
    ensures whole { (settlement rows.now letter nav held).cash
        + (settlement rows.now letter nav held).waived
        ≡ load_due rows.now letter }
    ensures within { (settlement rows.now letter nav held).paid ≤ held }
    ensures worth { (settlement rows.now letter nav held).cash
        ≤ half ((settlement rows.now letter nav held).paid * nav) 1000 }
    ensures covered { (settlement rows.now letter nav held).paid < held
        → (settlement rows.now letter nav held).waived ≡ 0 }
    ensures least { (settlement rows.now letter nav held).paid * nav < 1000 * load_due rows.now
        letter + nav }
{}

/// The rate of a settlement is never below the letter's and, in a lawful table, never above the ceiling of a front-end
/// load.
#[tactic(auto, using(crate::proofs::LetterFacts::rate_ceiling))]
pub fn the_rate_is_never_below_the_letters(rows: &[Bracket], letter: Letter)
    requires lawful { front_fault rows.now ≡ None }
    requires rate { letter.rate ≤ 850 }
    ensures least { letter.rate ≤ rate_earned rows.now letter }
    ensures ceiling { rate_earned rows.now letter ≤ 850 }
{}

/// Where the purchases reach the amount, alone or with the credit, a letter at the rate of its amount has nothing due,
/// and no held mils are paid; nor does one without purchases.
pub fn a_reached_amount_leaves_nothing_due(rows: &[Bracket], letter: Letter, nav: Nav, held: Mils)
    requires lawful { front_fault rows.now ≡ None }
    requires rate { letter.rate ≡ bracket rows.now letter.amount }
    requires nav { 1 ≤ nav }
    ensures rate { letter.amount ≤ letter.start + letter.bought
        → rate_earned rows.now letter ≡ letter.rate }
    ensures due { letter.amount ≤ letter.start + letter.bought → load_due rows.now letter ≡ 0 }
    ensures paid { letter.amount ≤ letter.start + letter.bought
        → (settlement rows.now letter nav held).paid ≡ 0 }
    ensures no_purchase { letter.bought ≡ 0 → load_due rows.now letter ≡ 0 }
{}
