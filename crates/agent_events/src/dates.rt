//! The text of a date in replies and statements.
ghost use Rattle.std.specs.Prelude.{◌≡◌};
ghost use Rattle.money_units.specs.Texts.{last_digit};
ghost use Rattle.agent_events.specs.AnswerTexts.{day_text};

use fund_calendar::Day;

fn digit(number: u16) -> u8
    ensures { result ≡ last_digit number }
{
    b'0' + (number % 10) as u8
}

/// The date `YYYY-MM-DD`, as its ten bytes.
pub fn day_digits(day: &Day) -> [u8; 10]
    ensures { result ≡ day_text day.now }
{
    let year = day.year();
    let month = day.month() as u16;
    let date = day.day() as u16;
    [
        digit(year / 1000),
        digit(year / 100),
        digit(year / 10),
        digit(year),
        b'-',
        digit(month / 10),
        digit(month),
        b'-',
        digit(date / 10),
        digit(date),
    ]
}
