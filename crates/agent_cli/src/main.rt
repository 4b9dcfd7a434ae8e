//! The program `agent`: the register and order desk of a mutual fund transfer agent.
#![tactic(auto)]

ghost use Rattle.std.specs.Prelude.{◌≡◌, ◌<◌};
ghost use Rattle.std.specs.Process.{exit_status};

mod stores;
mod words;

use crate::stores::reason_of;
use crate::words::fault_in;
use agent_edge::{StdinSource, StdoutSink, SystemClock, TcpDoor};
use agent_run::{Command, Status, command_of, no_memory, run};
use household_fold::Steps;
use money_units::NoMemory;
use sqlite_keeper::SqliteKeeper;
use std::io::ErrorKind;
use std::marker::Brand;
use std::process::ExitCode;
use std::sync::ledger::{Blank, Ledger};
use std::{env, io};

// The words after the program's name; none, and so no command, where one of them isn't UTF-8.
fn words_given(rt: &HostRuntime) -> Result<Vec<String>, NoMemory> {
    let mut words = Vec::new(rt.alloc());
    match env::args(rt) {
        Ok(all) => {
            for word in all.skip(1) {
                words.push(word)?;
            }
        }
        Err(fault) => {
            if fault.kind() == ErrorKind::OutOfMemory {
                return Err(NoMemory);
            }
        }
    }
    Ok(words)
}

// Says on standard error what the status of a run leaves open: what is wrong with the words, and why the store or the port failed. Whether
// it can be said changes nothing.
fn tell(rt: &HostRuntime, words: &[String], status: Status) {
    let Status(number) = status;
    let _ = match number {
        1 => tell_words(rt, words),
        5 => tell_store(rt, words),
        8 => tell_port(rt, words),
        _ => Ok(()),
    };
}

fn tell_words(rt: &HostRuntime, words: &[String]) -> io::Result<()> {
    match fault_in(words) {
        Some(fault) => eprintln!(rt; "agent: {fault}"),
        None => Ok(()),
    }
}

fn tell_store(rt: &HostRuntime, words: &[String]) -> io::Result<()> {
    match command_of(rt.alloc(), words) {
        Ok(Some(Command::Apply { store, .. })) => tell_reason(rt, store),
        Ok(Some(Command::Serve { store, .. })) => tell_reason(rt, store),
        _ => Ok(()),
    }
}

fn tell_reason(rt: &HostRuntime, store: &str) -> io::Result<()> {
    let reason = reason_of(rt, store);
    eprintln!(rt; "agent: the store {store:?} failed: {reason}")
}

fn tell_port(rt: &HostRuntime, words: &[String]) -> io::Result<()> {
    match command_of(rt.alloc(), words) {
        Ok(Some(Command::Serve { port, .. })) => eprintln!(rt;
            "agent: port {port} of 127.0.0.1 can't be listened at, is it taken?, or a connection couldn't be accepted"
        ),
        _ => Ok(()),
    }
}

// The run over a file, this machine's sockets and clock, standard input and standard output, whose steps count on this ledger.
fn run_on<L: Ledger>(rt: HostRuntime, blank: Blank) -> Status
    requires name { blank.name ≡ L.name }
    requires parts { blank.parts ≡ L.parts }
    requires some { 0 < blank.parts }
{
    let mut steps = Steps::<L>::new(blank);
    let mut input = StdinSource::new(rt.stdin());
    let mut out = StdoutSink::new(rt.stdout());
    let alloc = rt.alloc();
    match words_given(&rt) {
        Ok(words) => {
            let mut keeper = SqliteKeeper::new(rt);
            let mut door = TcpDoor::new(rt);
            let mut clock = SystemClock::new(rt);
            let status = run(
                alloc,
                &words,
                &mut keeper,
                &mut door,
                &mut clock,
                &mut input,
                &mut out,
                &mut steps,
            );
            tell(&rt, &words, status);
            status
        }
        Err(NoMemory) => no_memory(&mut out),
    }
}

// The program ends with the number of a status.
fn ended_with(status: Status) -> ExitCode
    ensures { exit_status result ≡ status.0 }
{
    let Status(number) = status;
    ExitCode::from(number)
}

fn main(rt: HostRuntime) -> ExitCode {
    ended_with(run_on::<Brand>(rt, Blank::new(1)))
}
