//! Reads a case file.

use crate::cases::{Case, Failing, KeptCheck, Run, no_case, no_run};
use crate::sections::{Section, sections_of};
use crate::texts::{bytes_in_digits, push_lines, push_text};
use crate::trouble::Trouble;
use agent_keeper::{CheckName, CheckPut};
use money_units::{Bytes, Moment};
use std::alloc::Global;

/// Why a case file can't be read: the line of the section, and what is wrong.
#[derive(Clone, Copy, Debug, PartialEq, Eq)]
pub struct Misread {
    pub line: u64,
    pub why: Trouble,
}

fn number_of(word: &str) -> Result<u64, Trouble> {
    match word.parse::<u64>() {
        Ok(number) => Ok(number),
        Err(_) => Err(Trouble::Unreadable("no number")),
    }
}

fn small_number_of(word: &str) -> Result<u32, Trouble> {
    match word.parse::<u32>() {
        Ok(number) => Ok(number),
        Err(_) => Err(Trouble::Unreadable("no number")),
    }
}

// A word of a command line, or of a name.
fn word_of(alloc: Global, word: &str) -> Result<String, Trouble> {
    let mut made = Vec::new(alloc);
    push_text(word.as_bytes(), &mut made)?;
    match String::from_utf8(made) {
        Ok(word) => Ok(word),
        Err(_) => Err(Trouble::Unreadable("no UTF-8")),
    }
}

fn push_words(alloc: Global, words: &str, into: &mut Vec<String>) -> Result<(), Trouble> {
    if words.is_empty() {
        return Ok(());
    }
    for word in words.split(' ') {
        into.push(word_of(alloc, word)?)?;
    }
    Ok(())
}

fn push_numbers(words: &str, into: &mut Vec<u64>) -> Result<(), Trouble> {
    for word in words.split(' ') {
        into.push(number_of(word)?)?;
    }
    Ok(())
}

fn push_moments(words: &str, into: &mut Vec<Moment>) -> Result<(), Trouble> {
    for word in words.split(' ') {
        match Moment::new(number_of(word)?) {
            Some(moment) => into.push(moment)?,
            None => return Err(Trouble::Unreadable("no moment")),
        }
    }
    Ok(())
}

// Rows in hexadecimal, a row a line.
fn rows_in(alloc: Global, lines: Option<&str>) -> Result<Vec<Bytes>, Trouble> {
    let mut rows = Vec::new(alloc);
    if let Some(lines) = lines {
        for line in lines.split('\n') {
            rows.push(Bytes::from_vec(bytes_in_digits(alloc, line.as_bytes())?))?;
        }
    }
    Ok(rows)
}

// What a line says of a checkpoint row: its household, its sheet, and the rest.
fn check_in(line: &str) -> Result<(CheckName, &str), Trouble> {
    let wrong = Trouble::Unreadable("no household, sheet and row");
    let Some((household, rest)) = line.split_once(' ') else {
        return Err(wrong);
    };
    let Some((sheet, row)) = rest.split_once(' ') else {
        return Err(wrong);
    };
    let name = CheckName {
        household: small_number_of(household)?,
        sheet: small_number_of(sheet)?,
    };
    Ok((name, row))
}

fn push_checks(
    alloc: Global,
    lines: Option<&str>,
    into: &mut Vec<CheckPut>,
) -> Result<(), Trouble> {
    if let Some(lines) = lines {
        for line in lines.split('\n') {
            let (name, row) = check_in(line)?;
            let bytes = Bytes::from_vec(bytes_in_digits(alloc, row.as_bytes())?);
            into.push(CheckPut {
                household: name.household,
                sheet: name.sheet,
                bytes,
            })?;
        }
    }
    Ok(())
}

fn kept_row(alloc: Global, row: &str) -> Result<Option<Bytes>, Trouble> {
    if row == "none" {
        return Ok(None);
    }
    Ok(Some(Bytes::from_vec(bytes_in_digits(alloc, row.as_bytes())?)))
}

fn push_kept(alloc: Global, lines: Option<&str>, into: &mut Vec<KeptCheck>) -> Result<(), Trouble> {
    if let Some(lines) = lines {
        for line in lines.split('\n') {
            let (name, row) = check_in(line)?;
            let bytes = kept_row(alloc, row)?;
            into.push(KeptCheck { name, bytes })?;
        }
    }
    Ok(())
}

fn push_section(lines: Option<&str>, into: &mut Vec<u8>) -> Result<(), Trouble> {
    match lines {
        Some(lines) => push_lines(lines.as_bytes(), into),
        None => Ok(()),
    }
}

fn bytes_in(alloc: Global, lines: Option<&str>) -> Result<Bytes, Trouble> {
    let mut made = Vec::new(alloc);
    push_section(lines, &mut made)?;
    Ok(Bytes::from_vec(made))
}

// One line of items: an item, and its answer if one is said.
fn push_item(line: &str, script: &mut Vec<u8>, answers: &mut Vec<u8>) -> Result<(), Trouble> {
    match line.split_once(" => ") {
        Some((item, answer)) => {
            push_lines(item.as_bytes(), script)?;
            push_lines(answer.as_bytes(), answers)
        }
        None => push_lines(line.as_bytes(), script),
    }
}

fn push_items(lines: Option<&str>, run: &mut Run) -> Result<(), Trouble> {
    if let Some(lines) = lines {
        for line in lines.split('\n') {
            push_item(line, &mut run.given.script, &mut run.wanted.item_answers)?;
        }
    }
    Ok(())
}

fn failing_of(word: &str) -> Result<Failing, Trouble> {
    match word {
        "keeper" => Ok(Failing::Keeper),
        "source" => Ok(Failing::Source),
        "sink" => Ok(Failing::Sink),
        "door" => Ok(Failing::Door),
        "link" => Ok(Failing::Link),
        _ => Err(Trouble::Unreadable("no object that fails")),
    }
}

fn push_failing(words: &str, into: &mut Vec<Failing>) -> Result<(), Trouble> {
    for word in words.split(' ') {
        into.push(failing_of(word)?)?;
    }
    Ok(())
}

fn push_fails(words: &str, run: &mut Run) -> Result<(), Trouble> {
    let Some((object, numbers)) = words.split_once(' ') else {
        return Err(Trouble::Unreadable("no calls that fail"));
    };
    let fails = &mut run.given.fails;
    match failing_of(object)? {
        Failing::Keeper => push_numbers(numbers, &mut fails.keeper),
        Failing::Source => push_numbers(numbers, &mut fails.source),
        Failing::Sink => push_numbers(numbers, &mut fails.sink),
        Failing::Door => push_numbers(numbers, &mut fails.door),
        Failing::Link => push_numbers(numbers, &mut fails.link),
    }
}

// Reads a section of what a run is given; `false` where it is another.
fn read_given(
    alloc: Global,
    word: &str,
    rest: &str,
    lines: Option<&str>,
    run: &mut Run,
) -> Result<bool, Trouble> {
    match word {
        "script" => push_section(lines, &mut run.given.script)?,
        "items" => push_items(lines, run)?,
        "connection" => run.given.connections.push(bytes_in(alloc, lines)?)?,
        "clock" => push_moments(rest, &mut run.given.readings)?,
        "pieces" => run.given.pieces = number_of(rest)? as usize,
        "room" => run.given.room = Some(number_of(rest)? as usize),
        "fail" => push_fails(rest, run)?,
        _ => return Ok(false),
    }
    Ok(true)
}

fn status_of(word: &str) -> Result<u8, Trouble> {
    match word.parse::<u8>() {
        Ok(status) => Ok(status),
        Err(_) => Err(Trouble::Unreadable("no status")),
    }
}

// Reads a section of what must come; `false` where it is another.
fn read_wanted(
    alloc: Global,
    word: &str,
    rest: &str,
    lines: Option<&str>,
    run: &mut Run,
) -> Result<bool, Trouble> {
    let wanted = &mut run.wanted;
    match word {
        "status" => wanted.status = status_of(rest)?,
        "accepted" => wanted.accepted = number_of(rest)?,
        "answers" => push_section(lines, &mut wanted.answers)?,
        "reply" => wanted.replies.push(bytes_in(alloc, lines)?)?,
        "rows" => wanted.rows = Some(rows_in(alloc, lines)?),
        "added" => wanted.added = Some(rows_in(alloc, lines)?),
        "count" => wanted.count = Some(number_of(rest)?),
        "kept" => push_kept(alloc, lines, &mut wanted.kept)?,
        _ => return Ok(false),
    }
    Ok(true)
}

// Reads a section on how a run is made again and how it ends.
fn read_again(word: &str, rest: &str, run: &mut Run) -> Result<(), Trouble> {
    match (word, rest) {
        ("note", _) => {}
        ("each-cut", "") => run.again.each_cut = true,
        ("each-end", "") => run.again.each_end = true,
        ("each-fault", _) => push_failing(rest, &mut run.again.each_fault)?,
        ("stop", "keeps") => run.stop = Some(true),
        ("stop", "loses") => run.stop = Some(false),
        _ => return Err(Trouble::Unreadable("no such section")),
    }
    Ok(())
}

fn read_of_run(
    alloc: Global,
    word: &str,
    rest: &str,
    lines: Option<&str>,
    run: &mut Run,
) -> Result<(), Trouble> {
    if read_given(alloc, word, rest, lines, run)? || read_wanted(alloc, word, rest, lines, run)? {
        return Ok(());
    }
    read_again(word, rest, run)
}

// The words of a run of which a section is the beginning; `None` where it begins none.
fn words_of(alloc: Global, word: &str, rest: &str) -> Result<Option<Vec<String>>, Trouble> {
    let mut words = Vec::new(alloc);
    match word {
        "run" => push_words(alloc, rest, &mut words)?,
        "apply" => push_words(alloc, "apply --store r --key op-desk000001", &mut words)?,
        "serve" => {
            let front = "serve --store r --port 8080 --key op-desk000001 --connections";
            push_words(alloc, front, &mut words)?;
            push_words(alloc, rest, &mut words)?;
        }
        _ => return Ok(None),
    }
    Ok(Some(words))
}

// Reads a section on what stands before the first run.
fn read_before(
    alloc: Global,
    word: &str,
    rest: &str,
    lines: Option<&str>,
    case: &mut Case,
) -> Result<(), Trouble> {
    match word {
        "note" => {}
        "behind" => case.behind = Some(word_of(alloc, rest)?),
        "store" => case.rows = rows_in(alloc, lines)?,
        "checks" => push_checks(alloc, lines, &mut case.checks)?,
        _ => return Err(Trouble::Unreadable("no such section before a run")),
    }
    Ok(())
}

fn read_section(alloc: Global, section: &Section<'_>, case: &mut Case) -> Result<(), Trouble> {
    let (word, rest) = section.words.split_once(' ').unwrap_or((section.words, ""));
    if let Some(words) = words_of(alloc, word, rest)? {
        let mut run = no_run(alloc, section.line);
        run.given.words = words;
        case.runs.push(run)?;
        return Ok(());
    }
    match case.runs.last_mut() {
        Some(run) => read_of_run(alloc, word, rest, section.lines, run),
        None => read_before(alloc, word, rest, section.lines, case),
    }
}

/// The case of a file.
pub(crate) fn case_of(alloc: Global, text: &str) -> Result<Case, Misread> {
    let mut case = no_case(alloc);
    let Ok(sections) = sections_of(alloc, text) else {
        return Err(Misread {
            line: 1,
            why: Trouble::NoMemory,
        });
    };
    for section in &sections {
        if let Err(why) = read_section(alloc, section, &mut case) {
            return Err(Misread {
                line: section.line,
                why,
            });
        }
    }
    if case.runs.is_empty() && case.behind.is_none() {
        return Err(Misread {
            line: 1,
            why: Trouble::Unreadable("no run"),
        });
    }
    Ok(case)
}
