//! Readers and writers of the standard library as a source and a sink of octets.
//!
//! Here the proof ends: what a file, a terminal or a pipe gives or takes is told by nobody.

ghost use Rattle.std.specs.Prelude.{◌≡◌, ◌≤◌, None, length, IsOk, IfOk, OnOk};
ghost use Rattle.std.specs.Io.KnownBytes.{Appends, ReadConsumes};
ghost use Rattle.amqp_below_streams.specs.Streams.{Reads, Reserves, Writes};
ghost use Rattle.txn_program_edges.specs.Reading.{reader_of, source_faults_of};
ghost use Rattle.txn_program_edges.specs.Writing.{sink_faults_of, spare_of, writer_of};

use amqp_below_streams::{ByteSink, ByteSource, Failed};
use amqp_txn_types::{NoMemory, refuse};
use std::io::{ErrorKind, Read, Write};

/// A reader as a source, as standard input. It tells no octets, and gives those that the reader
/// gives, where the reader tells them. A read that is interrupted is made again.
#[derive(Drop)]
pub struct StdSource<R> {
    reader: R,
    faults: u64,
    /// Where a read puts its octets first, made once.
    chunk: [u8; 4096],
}

impl<R: Read> StdSource<R> {
    /// A source of what the reader gives, none of whose reads failed.
    pub fn new(reader: R) -> Self
        ensures reader { reader_of result ≡ reader }
        ensures faults { source_faults_of result ≡ 0 }
    {
        StdSource {
            reader,
            faults: 0,
            chunk: [0; 4096],
        }
    }
}

impl<R: Read> ByteSource for StdSource<R> {
    ghost use Rattle.std.specs.Prelude.{None};

    ghost rest = { λ _. None };

    ghost faults = { λ source. source.faults };

    fn read(&mut self, buf: &mut [u8]) -> Result<usize, Failed>
        ensures told { Reads None None (source_faults_of self.old) (source_faults_of self.new)
            buf.old buf.new result }
        ensures reader { ReadConsumes (R.remaining (reader_of self.old))
            (R.remaining (reader_of self.new)) result buf.new }
    {
        let chunk = &mut self.chunk[..];
        let room = buf.len().min(chunk.len());
        let Ok(count) = read_once(&mut self.reader, &mut chunk[..room]) else {
            return refuse(&mut self.faults, Failed);
        };
        buf[..count].copy_from_slice(&chunk[..count]);
        Ok(count)
    }
}

/// One read, made again as long as it is interrupted.
fn read_once<R: Read>(reader: &mut R, buf: &mut [u8]) -> Result<usize, Failed>
    ensures within { IfOk result (λ count. count ≤ length buf.old) }
    ensures octets { ReadConsumes (R.remaining reader.old) (R.remaining reader.new) result buf.new }
{
    for _ in 0..u64::MAX {
        match reader.read(buf) {
            Ok(count) => return Ok(count),
            Err(error) if error.kind() == ErrorKind::Interrupted => {}
            Err(_) => return Err(Failed),
        }
    }
    Err(Failed)
}

/// A writer as a sink, as standard output. It tells no octets, and room in it takes no memory. A
/// write gives the writer the whole piece; some octets of one that fails may have been taken.
#[derive(Drop)]
pub struct StdSink<W> {
    writer: W,
    faults: u64,
    spare: usize,
}

impl<W: Write> StdSink<W> {
    /// A sink that gives what it takes to the writer, none of whose writes failed.
    pub fn new(writer: W) -> Self
        ensures writer { writer_of result ≡ writer }
        ensures faults { sink_faults_of result ≡ 0 }
        ensures spare { spare_of result ≡ 0 }
    {
        StdSink {
            writer,
            faults: 0,
            spare: 0,
        }
    }

    /// The writer.
    pub fn into_writer(self) -> W
        ensures { result ≡ writer_of self }
    {
        self.writer
    }
}

impl<W: Write> ByteSink for StdSink<W> {
    ghost use Rattle.std.specs.Prelude.{None};

    ghost written = { λ _. None };

    ghost faults = { λ sink. sink.faults };

    ghost spare = { λ sink. sink.spare };

    fn reserve(&mut self, more: usize) -> Result<(), NoMemory>
        ensures told { Reserves None None (sink_faults_of self.old) (sink_faults_of self.new)
            (spare_of self.old) (spare_of self.new) more result }
        ensures ok { IsOk result }
        ensures writer { writer_of self.new ≡ writer_of self.old }
    {
        self.spare = self.spare.max(more);
        Ok(())
    }

    fn write(&mut self, bytes: &[u8]) -> Result<usize, Failed>
        requires { length bytes.now ≤ spare_of self.old }
        ensures told { Writes None None (sink_faults_of self.old) (sink_faults_of self.new)
            (spare_of self.old) (spare_of self.new) bytes.now result }
        ensures whole { IfOk result (λ count. count ≡ length bytes.now) }
        ensures writer { OnOk result (Appends (W.contents (writer_of self.old))
            (W.contents (writer_of self.new)) bytes.now) }
    {
        match self.writer.write_all(bytes) {
            Ok(()) => {
                self.spare -= bytes.len();
                Ok(bytes.len())
            }
            Err(_) => refuse(&mut self.faults, Failed),
        }
    }
}
