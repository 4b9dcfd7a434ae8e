//! The rule of a time zone, as it is read from its text.
/// A yearly change of the clock: an hour on the `week`-th `weekday` of a month, or on the last one where the week
/// is 5. Sunday is 0.
#[derive(Clone, Copy, Debug, PartialEq, Eq)]
pub struct Change {
    pub month: u8,
    pub week: u8,
    pub weekday: u8,
    pub hour: u8,
}

/// The changes between which daylight time counts, one hour ahead of standard time.
#[derive(Clone, Copy, Debug, PartialEq, Eq)]
pub struct Daylight {
    pub begins: Change,
    pub ends: Change,
}

/// How many minutes standard time is behind UTC or ahead of it; one of the two is 0.
#[derive(Clone, Copy, Debug, PartialEq, Eq)]
pub struct Offset {
    pub behind: u16,
    pub ahead: u16,
}

/// The rule of a time zone.
#[derive(Clone, Copy, Debug, PartialEq, Eq)]
pub struct ZoneRule {
    pub offset: Offset,
    pub daylight: Option<Daylight>,
}
