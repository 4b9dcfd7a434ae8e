//! Why a store fails, as far as a look at its path tells, for standard error.
use money_units::begins;
use std::fs::{File, OpenOptions};
use std::io::{ErrorKind, Read};
use std::{fs, io};

// The first bytes of each SQLite file that isn't empty.
const MARK: &[u8] = b"SQLite format 3\0";

/// Why the store at this path can't be opened or written, as far as a look at the path tells.
pub(crate) fn reason_of(rt: &HostRuntime, path: &str) -> &'static str {
    let bytes = path.as_bytes();
    if begins(b":memory:", bytes) || begins(b"file:", bytes) {
        return "it is to be the path of a file";
    }
    match fs::metadata(rt, path) {
        Ok(found) => {
            if found.is_dir() {
                "it is a folder"
            } else if found.is_file() {
                reason_of_file(rt, path)
            } else {
                "it is no file but a device, a pipe or a socket"
            }
        }
        Err(fault) => reason_missing(fault.kind()),
    }
}

fn reason_missing(kind: ErrorKind) -> &'static str {
    match kind {
        ErrorKind::NotFound =>
            "there is no such file, and none can be made there: is its folder there, and may it be written?",
        ErrorKind::NotADirectory => "what should be its folder is a file",
        ErrorKind::PermissionDenied => "its folder may not be looked into",
        _ => "its path can't be looked at",
    }
}

fn reason_of_file(rt: &HostRuntime, path: &str) -> &'static str {
    match begins_as_database(rt, path) {
        Ok(true) => reason_of_database(rt, path),
        Ok(false) => "it is no SQLite database",
        Err(fault) => match fault.kind() {
            ErrorKind::PermissionDenied => "it may not be read",
            _ => "it can't be read",
        },
    }
}

// Whether the file is empty or begins as a SQLite file does.
fn begins_as_database(rt: &HostRuntime, path: &str) -> io::Result<bool> {
    let mut file: File = fs::open(rt, path)?;
    let mut front = [0u8; 16];
    let count = file.read(&mut front)?;
    Ok(count == 0 || count == front.len() && front.as_slice() == MARK)
}

fn reason_of_database(rt: &HostRuntime, path: &str) -> &'static str {
    match OpenOptions::new().write(true).open(rt, path) {
        Ok(_) =>
            "another program holds it locked or made it, it has a second name, or the disk is full or failed",
        Err(_) => "it may not be written",
    }
}
