//! Sources and sinks over std's readers and writers, standard input and output among them. What a reader or a writer
//! tells of its bytes, its source or sink tells; the standard ones tell nothing: what the system gives and takes is
//! trusted.
ghost use Rattle.std.specs.Prelude.{◌≡◌};

use super::{Sink, SinkFault, Source, SourceFault};
use std::io::{Read, Stdin, Stdout, Write};

/// The bytes of a reader. It counts the reads that failed.
#[derive(Drop)]
pub struct ReaderSource<R> {
    reader: R,
    faults: u64,
}

impl<R: Read> ReaderSource<R> {
    /// The bytes that the reader has left.
    pub fn new(reader: R) -> ReaderSource<R>
        ensures left { ⟦<ReaderSource<R> as Source>⟧.left result ≡ R.remaining reader }
        ensures faults { ⟦<ReaderSource<R> as Source>⟧.faults result ≡ 0 }
    {
        ReaderSource { reader, faults: 0 }
    }
}

impl<R: Read> Source for ReaderSource<R> {
    ghost left = { λ source. R.remaining source.reader };

    ghost faults = { λ source. source.faults };

    fn read(&mut self, into: &mut [u8]) -> Result<usize, SourceFault> {
        match self.reader.read(into) {
            Ok(count) => Ok(count),
            Err(_) => {
                self.faults = self.faults.saturating_add(1);
                Err(SourceFault)
            }
        }
    }
}

/// Writes to a writer. It counts the writes that failed, and those that took nothing of a piece that isn't empty.
#[derive(Drop)]
pub struct WriterSink<W> {
    writer: W,
    faults: u64,
}

impl<W: Write> WriterSink<W> {
    /// What is written goes to the writer.
    pub fn new(writer: W) -> WriterSink<W>
        ensures contents { ⟦<WriterSink<W> as Sink>⟧.contents result ≡ W.contents writer }
        ensures faults { ⟦<WriterSink<W> as Sink>⟧.faults result ≡ 0 }
    {
        WriterSink { writer, faults: 0 }
    }
}

impl<W: Write> Sink for WriterSink<W> {
    ghost contents = { λ sink. W.contents sink.writer };

    ghost faults = { λ sink. sink.faults };

    fn write(&mut self, from: &[u8]) -> Result<usize, SinkFault> {
        match self.writer.write(from) {
            Ok(count) if count > 0 || from.is_empty() => Ok(count),
            _ => {
                self.faults = self.faults.saturating_add(1);
                Err(SinkFault)
            }
        }
    }
}

/// Standard input.
pub type StdinSource = ReaderSource<Stdin>;

/// Standard output.
pub type StdoutSink = WriterSink<Stdout>;
