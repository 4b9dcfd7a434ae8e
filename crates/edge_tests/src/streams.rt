//! Streams: a reader is read to its end and a writer takes a whole text in pieces of any length, and the standard streams are there.
use crate::pieces::{ShortReader, ShortWriter};
use agent_edge::{
    MemorySink, MemorySource, ReadFault, ReaderSource, Sink, SinkFault, Source, SourceFault,
    StdinSource, StdoutSink, WriterSink, read_up_to, write_whole,
};
use money_units::NoMemory;
use std::alloc::Global;
use std::process::Abort;
use std::test::Fail;

// Twenty bytes: in pieces of 7 three reads give them, and a fourth the end.
const TEXT: &[u8] = b"buy,101,1,14,100.00\n";

// Whether the source gives the whole text and nothing else.
fn gives_text<S: Source>(alloc: Global, source: &mut S, limit: usize) -> Result<bool, ReadFault> {
    let read = read_up_to(alloc, source, limit)?;
    Ok(read.as_slice() == TEXT)
}

// The second read of an empty piece fails.
fn expect_empty_reads(rt: &impl Abort, source: &mut MemorySource) {
    assert_eq!(rt; source.read(&mut []), Ok(0));
    assert!(rt; source.read(&mut []).is_err());
    assert_eq!(rt; source.left(), TEXT);
}

// The second write of an empty piece fails.
fn expect_empty_writes(rt: &impl Abort, sink: &mut MemorySink) {
    assert_eq!(rt; sink.write(b""), Ok(0));
    assert!(rt; sink.write(b"").is_err());
}

#[test]
fn an_empty_piece_fails_only_where_it_is_listed(rt: HostRuntime) -> Result<(), Fail> {
    let mut source = MemorySource::new(rt.alloc(), TEXT, 7, &[2])?;
    expect_empty_reads(&rt, &mut source);
    let mut sink = MemorySink::new(rt.alloc(), 7, 0, &[2])?;
    expect_empty_writes(&rt, &mut sink);
    Ok(())
}

// Whether a reader that gives at most `step` bytes at a call gives the whole text.
fn reader_gives_text(
    alloc: Global,
    step: usize,
    fails: bool,
    limit: usize,
) -> Result<bool, ReadFault> {
    let left = TEXT;
    let mut source = ReaderSource::new(ShortReader { left, step, fails });
    gives_text(alloc, &mut source, limit)
}

#[test]
fn a_reader_is_read_to_its_end(rt: HostRuntime) {
    for (step, fails, limit, wanted) in [
        (1_usize, false, 20_usize, Ok(true)),
        (7, false, 20, Ok(true)),
        (7, false, 19, Err(ReadFault::TooLong)),
        (7, true, 20, Err(ReadFault::Fault)),
    ] {
        let found = reader_gives_text(rt.alloc(), step, fails, limit);
        assert_eq!(rt; found, wanted, "in pieces of {step}");
    }
}

// How the text is written to a writer that takes at most `step` bytes at a call and `room` in all, and whether it takes so many.
fn writer_takes(alloc: Global, step: usize, room: usize) -> (Option<SinkFault>, bool) {
    let taken = Vec::new(alloc);
    let mut writer = ShortWriter { taken, step, room };
    let mut sink = WriterSink::new(&mut writer);
    let fault = write_whole(&mut sink, TEXT).err();
    (fault, Some(writer.taken.as_slice()) == TEXT.get(..room))
}

#[test]
fn a_writer_takes_the_whole_text(rt: HostRuntime) {
    for (step, room, fault) in [
        (1_usize, 20_usize, None),
        (7, 20, None),
        (7, 10, Some(SinkFault)),
    ] {
        let found = writer_takes(rt.alloc(), step, room);
        assert_eq!(rt; found, (fault, true), "room {room}");
    }
}

// How many bytes come from standard input.
fn count_of_input(alloc: Global, source: &mut StdinSource) -> Result<usize, ReadFault> {
    let read = read_up_to(alloc, source, 0)?;
    Ok(read.len())
}

#[test]
fn the_standard_streams_are_there(rt: HostRuntime) {
    // A test's standard input is empty.
    let mut source: StdinSource = ReaderSource::new(rt.stdin());
    let count = count_of_input(rt.alloc(), &mut source);
    let mut sink: StdoutSink = WriterSink::new(rt.stdout());
    let written = write_whole(&mut sink, b"a line\n");
    assert_eq!(rt; (count, written), (Ok(0), Ok(())));
}

#[test]
fn faults_are_told_in_words(rt: HostRuntime) -> Result<(), Fail> {
    let text = format!(in rt.alloc(); "{SourceFault}; {SinkFault}; {}", ReadFault::TooLong)?;
    let wanted = "a read failed; a write failed; too many bytes to read";
    assert_eq!(rt; text.as_str(), wanted);
    Ok(())
}
