//! Replies that no request over HTTP brings about: those of a line that is late and of a full journal, two faults, and a text past ASCII.
use agent_events::{Identifier, Refusal, Reply};
use agent_http::{fault_bytes, reply_bytes};
use http_stream::HttpFault;
use money_units::{Bytes, Moment, NoMemory};
use script_text::reply_line;
use std::alloc::{AllocError, Global};
use std::test::Fail;

const JSON: &str = "application/json";

// The bytes of HTTP with this status and its phrase, type and body.
fn message(
    alloc: Global,
    status: &str,
    kind: &str,
    last: bool,
    body: &str,
) -> Result<String, AllocError> {
    let length = body.len();
    let closing = if last { "\r\nConnection: close" } else { "" };
    format!(in alloc;
        "HTTP/1.1 {status}\r\nContent-Type: {kind}\r\nContent-Length: {length}{closing}\r\n\r\n{body}"
    )
}

// The line of a script, and the bytes of HTTP where the connection stays or closes.
fn said(alloc: Global, reply: &Reply, last: bool) -> Result<(Vec<u8>, Vec<u8>), NoMemory> {
    let mut line = Vec::new(alloc);
    reply_line(alloc, reply, &mut line)?;
    Ok((line, reply_bytes(alloc, reply, last)?))
}

// What is sent: the status with its phrase, the type of the body, and the body.
struct Sent {
    status: &'static str,
    kind: &'static str,
    body: &'static str,
}

// Whether a reply has this line, and these bytes where the connection stays or closes.
fn is_said(alloc: Global, reply: &Reply, line: &str, sent: &Sent) -> Result<bool, NoMemory> {
    for last in [false, true] {
        let wanted = message(alloc, sent.status, sent.kind, last, sent.body)?;
        let (found, bytes) = said(alloc, reply, last)?;
        if found.as_slice() != line.as_bytes() || bytes.as_slice() != wanted.as_bytes() {
            return Ok(false);
        }
    }
    Ok(true)
}

const LATE: Sent = Sent {
    status: "422 Unprocessable Entity",
    kind: JSON,
    body: "{\"code\":\"8\",\"reply\":\"no\",\"value\":\"1719864000\"}",
};

const FULL: Sent = Sent {
    status: "409 Conflict",
    kind: JSON,
    body: "{\"code\":\"19\",\"reply\":\"no\"}",
};

// Over HTTP a line comes in a batch alone, and no run fills a journal.
#[test]
fn a_late_line_and_a_full_journal_have_their_replies(rt: HostRuntime) -> Result<(), Fail> {
    let due = Moment::new(1719864000).ok_or("no moment")?;
    let late = Reply::Refused(Refusal::LateForDealer(due));
    assert!(rt; is_said(rt.alloc(), &late, "no,8,1719864000\n", &LATE)?);
    let full = Reply::Refused(Refusal::JournalFull);
    assert!(rt; is_said(rt.alloc(), &full, "no,19\n", &FULL)?);
    Ok(())
}

const TEXT: Sent = Sent {
    status: "200 OK",
    kind: "text/plain",
    body: "a \"\u{e9}\"\n",
};

// A name has no such letter: it has two bytes, and the length counts bytes.
#[test]
fn a_text_is_sent_as_it_is(rt: HostRuntime) -> Result<(), Fail> {
    let account = Identifier::new(101).ok_or("no account")?;
    let text = Bytes::from_slice(rt.alloc(), b"a \"\xc3\xa9\"\n")?;
    let statement = Reply::Statement { account, text };
    let line = "ok,statement,101,\"a \"\"\u{e9}\"\"\n\"\n";
    assert!(rt; is_said(rt.alloc(), &statement, line, &TEXT)?);
    Ok(())
}

fn is_fault_sent(
    alloc: Global,
    fault: HttpFault,
    status: &str,
    body: &str,
) -> Result<bool, NoMemory> {
    for last in [false, true] {
        let wanted = message(alloc, status, JSON, last, body)?;
        if fault_bytes(fault, last) != wanted.as_bytes() {
            return Ok(false);
        }
    }
    Ok(true)
}

// Want of memory, and the status that no call answers.
#[test]
fn faults_that_no_run_shows_have_their_bytes(rt: HostRuntime) -> Result<(), Fail> {
    for (fault, status, body) in [
        (
            HttpFault::S500,
            "500 Internal Server Error",
            "{\"code\":\"500\",\"reply\":\"fault\"}",
        ),
        (
            HttpFault::S507,
            "507 Insufficient Storage",
            "{\"code\":\"507\",\"reply\":\"fault\"}",
        ),
    ] {
        assert!(rt; is_fault_sent(rt.alloc(), fault, status, body)?, "{status}");
    }
    Ok(())
}
