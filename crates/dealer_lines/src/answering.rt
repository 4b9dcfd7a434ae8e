//! The answers to the lines of a batch.
ghost use Rattle.std.specs.Prelude.{◌≡◌, ◌≤◌, ◌++◌, IfOk, Ok, OnOk, is_some, true};
ghost use Rattle.agent_events.specs.declared.verdict.Caller.{Caller as AnyCaller};
ghost use Rattle.dealer_lines.specs.Answers.{line_answer, lines_given, with_answer};
ghost use Rattle.dealer_lines.specs.Lines.{all_lines, is_line, line_events};
ghost use Rattle.register_laws.specs.Lawful.{own_at};
ghost use Rattle.register_laws.specs.OneEventMore.{corrected_table};
ghost use Rattle.register_machine.specs.journal.Journals.{last_moment};
ghost use Rattle.register_machine.specs.journal.Kinds.{dealer_numbered, dealers_of};
ghost use Rattle.register_machine.specs.journal.Lawful.{IsLawful};
ghost use Rattle.register_machine.specs.run.Batches.{batch_after_line, batch_after_lines};
ghost use Rattle.register_machine.specs.run.Replies.{order_reply};

use crate::verdicts::{LineVerdict, said_of_line};
use agent_events::{Asked, Caller, OrderReply, Placed, Refusal, Reply, Request};
use forward_price::PriceBook;
use money_units::{List, Moment, NoMemory};
use order_book::OrderBook;
use request_rules::Inquiry;
use std::alloc::Global;

/// The replies to the lines, in order, and the orders that they place, all at one moment.
#[derive(Drop)]
pub struct LinesAnswered {
    pub replies: List<Reply>,
    pub moment: Moment,
    pub placed: List<Placed>,
}

/// The reply to a line that places this order, or placed it before.
fn order_reply(placed: &Placed) -> Reply
    ensures { result ≡ order_reply placed.now }
{
    Reply::Order(OrderReply {
        account: placed.order.account,
        ref_no: placed.order.ref_no,
        receipt: placed.receipt,
        due: placed.due,
    })
}

/// Takes in what is said of a line behind those before it.
fn take_in(answered: &mut LinesAnswered, said: LineVerdict) -> Result<(), NoMemory>
    ensures moment { answered.new.moment ≡ answered.old.moment }
    ensures given { OnOk result (lines_given answered.new
        ≡ with_answer (lines_given answered.old) (line_answer answered.old.moment said)) }
{
    match said {
        LineVerdict::Places(placed) => {
            answered.replies.push(order_reply(&placed))?;
            answered.placed.push_copy(&placed)?;
            Ok(())
        }
        LineVerdict::Again(placed) => {
            answered.replies.push(order_reply(&placed))?;
            Ok(())
        }
        LineVerdict::Refused(refusal) => {
            answered.replies.push(Reply::Refused(refusal))?;
            Ok(())
        }
    }
}

/// Answers a request that is a line, behind the lines before it.
fn answer_line(
    book: &OrderBook,
    inquiry: &Inquiry,
    request: &Request,
    answered: &mut LinesAnswered,
) -> Result<(), NoMemory>
    requires own { inquiry.now ≡ own_at book.now.journal inquiry.now.now inquiry.now.caller }
    requires moment { answered.old.moment ≡ inquiry.now.now }
    requires lawful { IsLawful (book.now.journal ++ (lines_given answered.old).events) }
    requires line { is_line (Ok request.now) ≡ true }
    ensures moment { answered.new.moment ≡ answered.old.moment }
    ensures given { OnOk result (lines_given answered.new
        ≡ batch_after_line inquiry.now (lines_given answered.old) (Ok request.now)) }
{
    match request {
        Request::Line(line) => {
            let earlier = answered.placed.as_slice();
            let said = said_of_line(book, inquiry, earlier, request, line);
            take_in(answered, said)
        }
        _ => unreachable!(),
    }
}

/// Answers what one record of a batch asks, behind those before it.
fn answer_asked(
    book: &OrderBook,
    inquiry: &Inquiry,
    asked: &Asked,
    answered: &mut LinesAnswered,
) -> Result<(), NoMemory>
    requires own { inquiry.now ≡ own_at book.now.journal inquiry.now.now inquiry.now.caller }
    requires moment { answered.old.moment ≡ inquiry.now.now }
    requires lawful { IsLawful (book.now.journal ++ (lines_given answered.old).events) }
    requires line { is_line asked.now ≡ true }
    ensures moment { answered.new.moment ≡ answered.old.moment }
    ensures given { OnOk result (lines_given answered.new
        ≡ batch_after_line inquiry.now (lines_given answered.old) asked.now) }
{
    match asked {
        Ok(request) => answer_line(book, inquiry, request, answered),
        Err(place) => take_in(answered, LineVerdict::Refused(Refusal::BadForm(*place))),
    }
}

/// The answers to a dealer's lines, each behind those before it, at a moment that isn't before the last one.
pub fn answer_lines(
    alloc: Global,
    book: &OrderBook,
    prices: &PriceBook,
    moment: Moment,
    dealer: u32,
    lines: &[Asked],
) -> Result<LinesAnswered, NoMemory>
    requires lawful { IsLawful book.now.journal }
    requires prices { prices.now.table ≡ corrected_table book.now.journal }
    requires moment { last_moment book.now.journal ≤ moment }
    requires dealer { is_some (dealer_numbered (dealers_of book.now.journal) dealer) ≡ true }
    requires lines { all_lines lines.now ≡ true }
    ensures answer { IfOk result (λ answered. batch_after_lines
        (own_at book.now.journal moment (AnyCaller.Dealer dealer)) lines.now
        ≡ lines_given answered) }
    ensures lawful { IfOk result (λ answered.
        IsLawful (book.now.journal ++ (lines_given answered).events)) }
{
    let inquiry = Inquiry::new(book, prices, moment, Caller::Dealer(dealer));
    let mut answered = LinesAnswered {
        replies: List::new(alloc),
        moment,
        placed: List::new(alloc),
    };
    for asked in lines {
        answer_asked(book, &inquiry, asked, &mut answered)?;
    }
    Ok(answered)
}
