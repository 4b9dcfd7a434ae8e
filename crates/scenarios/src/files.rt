//! The case files of the folder that the program runs in.

use crate::trouble::Trouble;
use std::fs;

// What the file of a case ends with.
const ENDING: &str = ".case";

fn names_in(rt: &HostRuntime, folder: &str) -> Result<Vec<String>, Trouble> {
    let mut names = Vec::new(rt.alloc());
    for entry in fs::read_dir(rt, folder)? {
        let entry = entry?;
        names.push(String::from_str(rt.alloc(), entry.file_name())?)?;
    }
    names.sort()?;
    Ok(names)
}

fn push_cases(rt: &HostRuntime, group: &str, into: &mut Vec<String>) -> Result<(), Trouble> {
    for file in &names_in(rt, group)? {
        if let Some(name) = file.as_str().strip_suffix(ENDING) {
            into.push(format!(in rt.alloc(); "{group}/{name}")?)?;
        }
    }
    Ok(())
}

fn is_folder(rt: &HostRuntime, name: &str) -> bool {
    match fs::metadata(rt, name) {
        Ok(found) => found.is_dir(),
        Err(_) => false,
    }
}

/// The names of all cases, by group and name.
pub(crate) fn all_cases(rt: &HostRuntime) -> Result<Vec<String>, Trouble> {
    let mut cases = Vec::new(rt.alloc());
    for group in &names_in(rt, ".")? {
        if is_folder(rt, group.as_str()) {
            push_cases(rt, group.as_str(), &mut cases)?;
        }
    }
    Ok(cases)
}

/// The text of a case's file.
pub(crate) fn text_of(rt: &HostRuntime, name: &str) -> Result<String, Trouble> {
    let path = format!(in rt.alloc(); "{name}{ENDING}")?;
    Ok(fs::read_to_string(rt, path.as_str())?)
}
