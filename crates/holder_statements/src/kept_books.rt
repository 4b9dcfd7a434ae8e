//! The reply to a look at the books.
ghost use Rattle.std.specs.Prelude.{◌≡◌, ℕ, List, map, IfOk};
ghost use Rattle.agent_events.specs.declared.reply.Reply.{Reply as AnyReply};
ghost use Rattle.register_machine.specs.corrections.Cash.{Movement};
ghost use Rattle.register_machine.specs.corrections.Gains.{dealer_numbers_of};
ghost use Rattle.register_machine.specs.queries.Books.{books_by};
ghost use Rattle.register_machine.specs.replay.Positions.{Register};
ghost use Rattle.register_machine.specs.rules.Situations.{Situation};
ghost use Rattle.holder_statements.specs.KeptBooks.{HasHoldersOnce, KeepsCash, KeepsShares, books_kept, class_kept, dealer_kept};

use agent_events::{
    BooksOfClasses, BooksOfDealers, BooksReply, ClassBooks, DealerBooks, Identifier, Party, Reply,
};
use gain_loss_book::CashBook;
use money_units::NoMemory;
use std::alloc::Global;

/// The outstanding shares of a class, loose and held together, in mils.
#[derive(Clone, Copy, Debug, PartialEq, Eq)]
pub struct ClassShares {
    pub class: Identifier,
    pub mils: u128,
}

/// The books: the outstanding mils and the cash in cents of each class, and the cash of the underwriter, the agent, each
/// dealer and all holders together; nothing is added up.
///
/// The classes and the dealers come by number, and the classes with their outstanding shares.
pub fn books_reply(
    alloc: Global,
    classes: &[ClassShares],
    dealers: &[Identifier],
    cash: &CashBook,
) -> Result<Reply, NoMemory>
    ensures kept { IfOk result (λ reply. reply
        ≡ AnyReply.Books (books_kept cash.now classes.now dealers.now)) }
    ensures books { IfOk result (λ reply.
        (situation : Situation) (register : Register) (movements : List Movement)
        → KeepsCash situation movements cash.now
        → KeepsShares situation register classes.now
        → dealers.now ≡ dealer_numbers_of situation.journal
        → reply ≡ AnyReply.Books (books_by situation register movements)) }
{
    let books = kept_books(alloc, classes, dealers, cash)?;
    Ok(Reply::Books(books))
}

fn kept_books(
    alloc: Global,
    classes: &[ClassShares],
    dealers: &[Identifier],
    cash: &CashBook,
) -> Result<BooksReply, NoMemory>
    ensures kept { IfOk result (λ books. books ≡ books_kept cash.now classes.now dealers.now) }
    ensures once { IfOk result (λ books. HasHoldersOnce cash.now) }
{
    let classes = books_of_classes(alloc, classes, cash)?;
    let dealers = books_of_dealers(alloc, dealers, cash)?;
    Ok(BooksReply {
        classes,
        underwriter: cash.balance(Party::Underwriter),
        agent: cash.balance(Party::Agent),
        dealers,
        holders: cash.holders_cash(),
    })
}

fn books_of_classes(
    alloc: Global,
    classes: &[ClassShares],
    cash: &CashBook,
) -> Result<BooksOfClasses, NoMemory>
    ensures { IfOk result (λ books. books ≡ map (class_kept cash.now) classes.now) }
{
    let mut books = BooksOfClasses::new(alloc);
    for row in classes {
        books.push(class_books(row, cash))?;
    }
    Ok(books)
}

fn class_books(row: &ClassShares, cash: &CashBook) -> ClassBooks
    ensures { result ≡ class_kept cash.now row.now }
{
    ClassBooks {
        class: row.class,
        outstanding: row.mils,
        cash: cash.balance(Party::Class(row.class.number())),
    }
}

fn books_of_dealers(
    alloc: Global,
    dealers: &[Identifier],
    cash: &CashBook,
) -> Result<BooksOfDealers, NoMemory>
    ensures { IfOk result (λ books. books ≡ map (dealer_kept cash.now) dealers.now) }
{
    let mut books = BooksOfDealers::new(alloc);
    for dealer in dealers {
        books.push(dealer_books(dealer, cash))?;
    }
    Ok(books)
}

fn dealer_books(dealer: &Identifier, cash: &CashBook) -> DealerBooks
    ensures { result ≡ dealer_kept cash.now dealer.now }
{
    DealerBooks {
        dealer: *dealer,
        cash: cash.balance(Party::Dealer(dealer.number())),
    }
}
