//! The scan of a head's lines, one line after another: it can stop after any byte and go on later.
ghost use Rattle.std.specs.Prelude.{◌≡◌, ◌+◌, ◌≤◌, ◌⊎◌, false, true, length};
ghost use Rattle.std.specs.List.{fold};
ghost use Rattle.http_stream.specs.Lines.{line_ended, line_with, with_byte};
ghost use Rattle.http_stream.specs.Scanning.{EndsAs, IsOneLine};

use memchr::memchr;

/// What stands in a line so far.
#[derive(Clone, Copy, Debug)]
pub(crate) enum Line {
    Nothing,
    /// One carriage return alone.
    Return,
    /// Anything else.
    Filled,
}

/// What the lines of a text show so far.
#[derive(Clone, Copy, Debug)]
pub(crate) struct Scan {
    /// The present line.
    pub line: Line,
    /// How many lines aren't empty.
    pub filled: usize,
    /// How many bytes the text has.
    pub size: usize,
    /// Whether the text has ended.
    pub ended: bool,
}

/// A scan of no byte.
pub(crate) const UNSCANNED: Scan = Scan {
    line: Line::Nothing,
    filled: 0,
    size: 0,
    ended: false,
};

/// The scan with these bytes behind it; what comes behind the text's end isn't read.
pub(crate) fn scan_on(scan: Scan, bytes: &[u8]) -> Scan
    requires few { scan.size + length bytes.now ≤ 16384 }
    requires lines { scan.filled ≤ scan.size }
    ensures folded { result ≡ fold with_byte scan bytes.now }
    ensures size { result.size ≤ scan.size + length bytes.now }
    ensures lines { result.filled ≤ result.size }
    ensures all { result.ended ≡ false → result.size ≡ scan.size + length bytes.now }
{
    let mut so_far = scan;
    let mut rest = bytes;
    'lines: while let Some(at) = line_end(so_far, rest) {
        so_far = with_line(so_far, &rest[..at]);
        rest = &rest[at + 1..];
    }
    with_part(so_far, rest)
}

// Where the present line ends, where the text goes on.
#[tactic(auto, using(crate::proofs::ScanLaws::ends_as))]
fn line_end(scan: Scan, rest: &[u8]) -> Option<usize>
    ensures { EndsAs scan rest.now result }
{
    if scan.ended {
        None
    } else {
        memchr(b'\n', rest)
    }
}

// The scan with the rest of a line and its line feed behind it.
#[tactic(auto, using(crate::proofs::ScanLaws::line_fed))]
fn with_line(scan: Scan, text: &[u8]) -> Scan
    requires few { scan.size + length text.now + 1 ≤ 16384 }
    requires lines { scan.filled ≤ scan.size }
    requires is_open { scan.ended ≡ false }
    requires one_line { IsOneLine text.now }
    ensures value { result ≡ with_byte (fold with_byte scan text.now) 10 }
    ensures size { result.size ≡ scan.size + length text.now + 1 }
    ensures lines { result.filled ≤ result.size }
{
    line_ended(
        line_on(scan.line, text),
        scan.filled,
        scan.size + text.len() + 1,
    )
}

// The scan with a part of a line behind it, or as it is where the text has ended.
#[tactic(auto, using(crate::proofs::ScanLaws::line_part, crate::proofs::ScanLaws::ended_part))]
fn with_part(scan: Scan, text: &[u8]) -> Scan
    requires few { scan.size + length text.now ≤ 16384 }
    requires lines { scan.filled ≤ scan.size }
    requires one_line { (scan.ended ≡ true) ⊎ IsOneLine text.now }
    ensures value { result ≡ fold with_byte scan text.now }
    ensures size { result.size ≤ scan.size + length text.now }
    ensures lines { result.filled ≤ result.size }
    ensures all { result.ended ≡ false → result.size ≡ scan.size + length text.now }
{
    if scan.ended {
        scan
    } else {
        Scan {
            line: line_on(scan.line, text),
            filled: scan.filled,
            size: scan.size + text.len(),
            ended: false,
        }
    }
}

// A line with these bytes behind it, none of which ends it.
#[tactic(auto, using(crate::proofs::ScanLaws::long_fills))]
fn line_on(line: Line, text: &[u8]) -> Line
    ensures { result ≡ fold line_with line text.now }
{
    match text {
        [] => line,
        [byte] => line_with(line, *byte),
        _ => Line::Filled,
    }
}

fn line_with(line: Line, byte: u8) -> Line
    ensures { result ≡ line_with line byte }
{
    match line {
        Line::Nothing => {
            if byte == b'\r' {
                Line::Return
            } else {
                Line::Filled
            }
        }
        Line::Return => Line::Filled,
        Line::Filled => Line::Filled,
    }
}

fn line_ended(line: Line, filled: usize, size: usize) -> Scan
    requires few { size ≤ 16384 }
    requires lines { filled + 1 ≤ size }
    ensures value { result ≡ line_ended line filled size }
    ensures size { result.size ≡ size }
    ensures lines { result.filled ≤ size }
{
    match line {
        Line::Filled => Scan {
            line: Line::Nothing,
            filled: filled + 1,
            size,
            ended: false,
        },
        Line::Nothing => Scan {
            line: Line::Nothing,
            filled,
            size,
            ended: filled > 0,
        },
        Line::Return => Scan {
            line: Line::Nothing,
            filled,
            size,
            ended: filled > 0,
        },
    }
}
