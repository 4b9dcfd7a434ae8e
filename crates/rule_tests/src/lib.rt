//! What no run and no clause shows of the rules' crates: units, dates, terms, lots, exchanges, dividends, offering prices
//! and sheets. Printed texts, the greatest numbers, long lists, and what a call answers that no request asks for.
#![tactic(auto)]

#[cfg(test)]
mod books;
#[cfg(test)]
mod calendars;
#[cfg(test)]
mod dividends;
#[cfg(test)]
mod exchanges;
#[cfg(test)]
mod fixtures;
#[cfg(test)]
mod lists;
#[cfg(test)]
mod lots;
#[cfg(test)]
mod offers;
#[cfg(test)]
mod sheets;
#[cfg(test)]
mod terms;
#[cfg(test)]
mod units;
