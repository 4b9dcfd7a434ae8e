//! A desk's own calls: what is prepared isn't kept, what is committed is kept whole or not at all.
ghost use Rattle.std.specs.Prelude.{◌≡◌, ◌<◌, IsTrue, true};
ghost use Rattle.dealer_lines.specs.Lines.{all_lines};
ghost use Rattle.register_desk.specs.Rows.{TellsRowsOf};

use crate::scripts::{DEALER, MARY, OPERATOR, PREAMBLE, TWO_DAYS, joined, open, replies, together};
use agent_events::{
    Amount, Asked, Bearer, Body, FixPriceForm, Identifier, LineForm, Order, Reference, Reply,
    Request,
};
use agent_keeper::{KeepFault, Keeper, MemoryKeeper};
use household_fold::Steps;
use money_units::{Cents, Moment, Nav, NoMemory};
use register_desk::Desk;
use script_text::reply_line;
use std::alloc::Global;
use std::marker::Brand;
use std::sync::ledger::{Blank, Ledger};
use std::test::Fail;

// What came of a request: the lines of its replies, the events before it, whether what it brings is kept, and the events behind.
#[derive(Drop)]
struct Told {
    lines: Vec<u8>,
    base: u64,
    kept: Result<(), KeepFault>,
    events: u64,
}

// A purchase of class 12 for 100.00.
fn purchase(account: u64, ref_no: u64) -> Result<Order, Fail> {
    Ok(Order {
        account: Identifier::new(account).ok_or("a number from 1 on")?,
        ref_no: Reference::new(ref_no).ok_or("a reference")?,
        body: Body::Buy {
            class: Identifier::new(12).ok_or("a number from 1 on")?,
            gross: Amount::new(Cents(10_000)).ok_or("an amount")?,
        },
    })
}

fn lines_of(alloc: Global, replies: &[Reply]) -> Result<Vec<u8>, NoMemory> {
    let mut lines = Vec::new(alloc);
    for reply in replies {
        reply_line(alloc, reply, &mut lines)?;
    }
    Ok(lines)
}

// Prepares a batch of the dealer's at the last moment, and commits it.
fn commit_lines<K: Keeper>(
    alloc: Global,
    desk: &mut Desk,
    keeper: &mut K,
    lines: &[Asked],
) -> Result<Told, Fail>
    requires attached { IsTrue (K.is_attached keeper.old) }
    requires told { TellsRowsOf (K.tells keeper.old) desk.old.book.journal }
    requires lines { all_lines lines.now ≡ true }
    ensures attached { IsTrue (K.is_attached keeper.new) }
    ensures told { TellsRowsOf (K.tells keeper.new) desk.new.book.journal }
{
    let moment = desk.last_moment();
    let caller = desk.caller_of(DEALER, OPERATOR);
    let prepared = desk.prepare_batch(keeper, moment, caller, lines)?;
    let lines = lines_of(alloc, prepared.replies())?;
    let base = prepared.base();
    let kept = desk.commit_batch(keeper, prepared);
    let events = desk.len();
    Ok(Told {
        lines,
        base,
        kept,
        events,
    })
}

// Commits a batch twice, in which a line between two others isn't in its form.
fn commit_twice<K: Keeper>(
    alloc: Global,
    desk: &mut Desk,
    keeper: &mut K,
    first: LineForm,
    last: LineForm,
) -> Result<(Told, Told), Fail>
    requires attached { IsTrue (K.is_attached keeper.old) }
    requires told { TellsRowsOf (K.tells keeper.old) desk.old.book.journal }
{
    let lines = [Ok(Request::Line(first)), Err(4), Ok(Request::Line(last))];
    let once = commit_lines(alloc, desk, keeper, &lines)?;
    let again = commit_lines(alloc, desk, keeper, &lines)?;
    Ok((once, again))
}

// A line of the dealer's at 1719835200.
fn line(account: u64, ref_no: u64) -> Result<LineForm, Fail> {
    Ok(LineForm {
        receipt: Moment::new(1_719_835_200).ok_or("a moment")?,
        order: purchase(account, ref_no)?,
    })
}

fn send_lines<L: Ledger>(
    alloc: Global,
    blank: Blank,
    keeper: &mut MemoryKeeper,
) -> Result<(Told, Told), Fail>
    requires name { blank.name ≡ L.name }
    requires parts { blank.parts ≡ L.parts }
    requires some { 0 < blank.parts }
{
    let mut steps = Steps::<L>::new(blank);
    let first = line(103, 1)?;
    let last = line(103, 2)?;
    let mut desk = open(alloc, keeper, PREAMBLE, &mut steps)?;
    commit_twice(alloc, &mut desk, keeper, first, last)
}

const LINES: &[u8] =
    b"ok,order,103,1,1719835200,1719864000\nno,2,4\nok,order,103,2,1719835200,1719864000\n";

#[test]
fn a_batch_is_kept_whole_or_not_at_all(rt: HostRuntime) -> Result<(), Fail> {
    // Sent again, the lines that were kept are known. The twelfth commit is the batch's.
    for (fails, first, rest) in [
        ([0_u64], (Ok(()), 13), (13, 13)),
        ([13], (Err(KeepFault::Failed), 11), (11, 13)),
    ] {
        let mut keeper = MemoryKeeper::new(rt.alloc(), &fails)?;
        let (once, again) = send_lines::<Brand>(rt.alloc(), Blank::new(1), &mut keeper)?;
        assert_eq!(rt; once.lines.as_slice(), LINES);
        assert_eq!(rt; once.base, 11);
        assert_eq!(rt; (once.kept, once.events), first);
        assert_eq!(rt; again.lines.as_slice(), LINES);
        assert_eq!(rt; (again.base, again.events), rest);
        assert!(rt; again.kept.is_ok());
        assert_eq!(rt; keeper.len(), Ok(13));
    }
    Ok(())
}

// Prepares a request at the last moment, and commits what it brings.
fn commit_request<K: Keeper, L: Ledger>(
    alloc: Global,
    desk: &mut Desk,
    keeper: &mut K,
    key: &[u8],
    request: &Request,
    steps: &mut Steps<L>,
) -> Result<Told, Fail>
    requires attached { IsTrue (K.is_attached keeper.old) }
    requires told { TellsRowsOf (K.tells keeper.old) desk.old.book.journal }
    ensures attached { IsTrue (K.is_attached keeper.new) }
    ensures told { TellsRowsOf (K.tells keeper.new) desk.new.book.journal }
{
    let moment = desk.last_moment();
    let caller = desk.caller_of(key, OPERATOR);
    let prepared = desk.prepare(keeper, moment, caller, request, steps)?;
    let mut lines = Vec::new(alloc);
    reply_line(alloc, prepared.reply(), &mut lines)?;
    let base = prepared.base();
    let kept = desk.commit(keeper, prepared);
    let events = desk.len();
    Ok(Told {
        lines,
        base,
        kept,
        events,
    })
}

// Commits one request and then another.
fn commit_both<K: Keeper, L: Ledger>(
    alloc: Global,
    desk: &mut Desk,
    keeper: &mut K,
    first: Order,
    second: Order,
    steps: &mut Steps<L>,
) -> Result<(Told, Told), Fail>
    requires attached { IsTrue (K.is_attached keeper.old) }
    requires told { TellsRowsOf (K.tells keeper.old) desk.old.book.journal }
{
    let one = commit_request(alloc, desk, keeper, MARY, &Request::Order(first), steps)?;
    let other = commit_request(alloc, desk, keeper, MARY, &Request::Order(second), steps)?;
    Ok((one, other))
}

// A purchase of Mary's, and then one for an account that isn't hers.
fn send_purchases<L: Ledger>(
    alloc: Global,
    blank: Blank,
    keeper: &mut MemoryKeeper,
) -> Result<(Told, Told), Fail>
    requires name { blank.name ≡ L.name }
    requires parts { blank.parts ≡ L.parts }
    requires some { 0 < blank.parts }
{
    let mut steps = Steps::<L>::new(blank);
    let own = purchase(101, 1)?;
    let other = purchase(103, 1)?;
    let mut desk = open(alloc, keeper, PREAMBLE, &mut steps)?;
    commit_both(alloc, &mut desk, keeper, own, other, &mut steps)
}

#[test]
fn what_is_accepted_is_kept_and_a_refusal_is_not(rt: HostRuntime) -> Result<(), Fail> {
    let mut keeper = MemoryKeeper::new(rt.alloc(), &[])?;
    let (first, second) = send_purchases::<Brand>(rt.alloc(), Blank::new(1), &mut keeper)?;
    assert_eq!(rt;
        first.lines.as_slice(),
        b"ok,order,101,1,1719835200,1719864000\n".as_slice()
    );
    assert_eq!(rt; (first.base, first.kept, first.events), (11, Ok(()), 12));
    assert_eq!(rt; second.lines.as_slice(), b"no,1\n".as_slice());
    assert_eq!(rt; (second.base, second.kept, second.events), (12, Ok(()), 12));
    assert_eq!(rt; keeper.len(), Ok(12));
    Ok(())
}

// 8.00 in the place of the first sheet's 10.00 of class 11, and the agent bears a loss.
fn corrected_price() -> Result<Request, Fail> {
    Ok(Request::FixPrice(FixPriceForm {
        fix: Reference::new(1).ok_or("a reference")?,
        bearer: Bearer::Agent,
        class: Identifier::new(11).ok_or("a number from 1 on")?,
        moment: Moment::new(1_719_864_000).ok_or("a moment")?,
        nav: Nav::new(800).ok_or("a net asset value")?,
    }))
}

// Prepares a request of the operator's at the last moment, and discards it: the line of its reply.
fn discard_request<K: Keeper, L: Ledger>(
    alloc: Global,
    desk: &mut Desk,
    keeper: &mut K,
    request: &Request,
    steps: &mut Steps<L>,
) -> Result<Vec<u8>, Fail>
    requires attached { IsTrue (K.is_attached keeper.old) }
    requires told { TellsRowsOf (K.tells keeper.old) desk.old.book.journal }
    ensures attached { IsTrue (K.is_attached keeper.new) }
    ensures told { TellsRowsOf (K.tells keeper.new) desk.new.book.journal }
{
    let moment = desk.last_moment();
    let caller = desk.caller_of(OPERATOR, OPERATOR);
    let prepared = desk.prepare(keeper, moment, caller, request, steps)?;
    let mut line = Vec::new(alloc);
    reply_line(alloc, prepared.reply(), &mut line)?;
    prepared.discard();
    Ok(line)
}

// What is asked behind a correction.
const LOOKS: &[u8] = b"1719954000,op-desk000001,show,101\n\
1719954000,op-desk000001,trace,101,1\n\
1719954000,op-desk000001,books\n";

// The line of a correction that is discarded, and the looks, a stroke behind each.
fn discard_and_look<K: Keeper, L: Ledger>(
    alloc: Global,
    desk: &mut Desk,
    keeper: &mut K,
    request: &Request,
    steps: &mut Steps<L>,
) -> Result<Vec<u8>, Fail>
    requires attached { IsTrue (K.is_attached keeper.old) }
    requires told { TellsRowsOf (K.tells keeper.old) desk.old.book.journal }
{
    let line = discard_request(alloc, desk, keeper, request, steps)?;
    let looks = replies(alloc, desk, keeper, LOOKS, steps)?;
    Ok(joined(alloc, &[&line, &looks])?)
}

// The line of a correction that is discarded, its line where it is prepared again and committed, and the looks, a stroke behind each;
// with the events before the commit and behind it.
fn discard_and_commit<K: Keeper, L: Ledger>(
    alloc: Global,
    desk: &mut Desk,
    keeper: &mut K,
    request: &Request,
    steps: &mut Steps<L>,
) -> Result<(Vec<u8>, u64, u64), Fail>
    requires attached { IsTrue (K.is_attached keeper.old) }
    requires told { TellsRowsOf (K.tells keeper.old) desk.old.book.journal }
{
    let line = discard_request(alloc, desk, keeper, request, steps)?;
    let told = commit_request(alloc, desk, keeper, OPERATOR, request, steps)?;
    let looks = replies(alloc, desk, keeper, LOOKS, steps)?;
    let all = joined(alloc, &[&line, &told.lines, &looks])?;
    Ok((all, told.base, told.events))
}

// The first of these at the desk behind a script.
fn looks_behind_discard<L: Ledger>(
    alloc: Global,
    blank: Blank,
    keeper: &mut MemoryKeeper,
    script: &[u8],
) -> Result<Vec<u8>, Fail>
    requires name { blank.name ≡ L.name }
    requires parts { blank.parts ≡ L.parts }
    requires some { 0 < blank.parts }
{
    let mut steps = Steps::<L>::new(blank);
    let request = corrected_price()?;
    let mut desk = open(alloc, keeper, script, &mut steps)?;
    discard_and_look(alloc, &mut desk, keeper, &request, &mut steps)
}

// The second one.
fn commit_behind_discard<L: Ledger>(
    alloc: Global,
    blank: Blank,
    keeper: &mut MemoryKeeper,
    script: &[u8],
) -> Result<(Vec<u8>, u64, u64), Fail>
    requires name { blank.name ≡ L.name }
    requires parts { blank.parts ≡ L.parts }
    requires some { 0 < blank.parts }
{
    let mut steps = Steps::<L>::new(blank);
    let request = corrected_price()?;
    let mut desk = open(alloc, keeper, script, &mut steps)?;
    discard_and_commit(alloc, &mut desk, keeper, &request, &mut steps)
}

const BEFORE: &[u8] = b"ok,show,101,11:942.507:0.000:10000.00\n\
ok,trace,101,1,filled,1719838800,1719864000,10.61,942.507,10000.00,574.93,0.000\n\
ok,books,11:942.507:9425.07 12:0.000:0.00 13:0.000:0.00 14:0.000:0.00,574.93,0.00,5:0.00,-10000.00\n";

// At 8.00 the offering price is 8.49, and 10000.00 buy 1177.856 shares, worth 9422.85 (9422.848) at 8.00. The class has 2.22 less and
// 235.349 shares more, worth 2353.49 at 10.00.
const FIXED: &[u8] = b"ok,fix,1,11:-2355.71\n";

const BEHIND: &[u8] = b"ok,show,101,11:1177.856:0.000:10000.00\n\
ok,trace,101,1,filled,1719838800,1719864000,8.49,1177.856,10000.00,577.15,0.000\n\
ok,books,11:1177.856:11778.56 12:0.000:0.00 13:0.000:0.00 14:0.000:0.00,577.15,-2355.71,5:0.00,\
-10000.00\n";

#[test]
fn a_correction_that_is_discarded_leaves_all_as_before(rt: HostRuntime) -> Result<(), Fail> {
    let script = together(rt.alloc(), PREAMBLE, TWO_DAYS)?;
    let mut keeper = MemoryKeeper::new(rt.alloc(), &[])?;
    let all = looks_behind_discard::<Brand>(rt.alloc(), Blank::new(1), &mut keeper, &script)?;
    let wanted = joined(rt.alloc(), &[FIXED, BEFORE])?;
    assert_eq!(rt; all.as_slice(), wanted.as_slice());
    assert_eq!(rt; keeper.len(), Ok(14));
    Ok(())
}

#[test]
fn a_correction_that_was_discarded_is_committed_as_a_new_one(rt: HostRuntime) -> Result<(), Fail> {
    let script = together(rt.alloc(), PREAMBLE, TWO_DAYS)?;
    let mut keeper = MemoryKeeper::new(rt.alloc(), &[])?;
    let (all, base, events) = commit_behind_discard::<Brand>(
        rt.alloc(),
        Blank::new(1),
        &mut keeper,
        &script,
    )?;
    let wanted = joined(rt.alloc(), &[FIXED, FIXED, BEHIND])?;
    assert_eq!(rt; all.as_slice(), wanted.as_slice());
    assert_eq!(rt; (base, events, keeper.len()), (14, 15, Ok(15)));
    Ok(())
}
