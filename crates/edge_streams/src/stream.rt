ghost use Rattle.std.specs.Prelude.{◌≡◌, ◌≢◌, ◌<◌, ◌≤◌, ◌||◌, false, Err, length, IfOk};
ghost use Rattle.std.specs.Io.KnownBytes.{ReadConsumes, WriteAppends};
ghost use Rattle.edge_traits.specs.Links.{moved_none};
ghost use Rattle.edge_streams.specs.Counts.{call_faults};
ghost use Rattle.edge_streams.specs.Views.{source_view, counted_source, reader_of, sink_view, counted_sink, writer_of};

use crate::counting::raise;
use crate::retrying::{read_once, write_once};
use edge_traits::{EdgeFault, Sink, Source};
use std::io::{Read, Write};

/// A source over a reader, as standard input.
#[derive(Drop)]
pub struct StdSource<R> {
    reader: R,
    ended: bool,
    faults: u64,
}

impl<R: Read> StdSource<R> {
    /// A source that hasn't ended, without faults so far.
    pub fn new(reader: R) -> StdSource<R>
        ensures view { source_view result ≡ counted_source false 0 }
        ensures reader { reader_of result ≡ reader }
    {
        StdSource {
            reader,
            ended: false,
            faults: 0,
        }
    }
}

impl<R: Read> Source for StdSource<R> {
    ghost shows = { source_view };

    fn read(&mut self, room: &mut [u8]) -> Result<usize, EdgeFault>
        requires { 0 < length room.old }
        ensures bound { IfOk result (λ n. n ≤ length room.old) }
        ensures bytes { ReadConsumes (R.remaining (reader_of self.old)) (R.remaining (reader_of self.new)) result room.new }
        ensures ended { (source_view self.new).ended ≡ ((source_view self.old).ended || moved_none result) }
        ensures memory { result ≢ Err EdgeFault.Memory }
        ensures faults { (source_view self.new).faults ≡ call_faults result (source_view self.old).faults }
    {
        match read_once(&mut self.reader, room) {
            Ok(count) => {
                self.ended |= count == 0;
                Ok(count)
            }
            Err(_) => {
                raise(&mut self.faults);
                Err(EdgeFault::Failed)
            }
        }
    }
}

/// A sink over a writer that keeps nothing back, as standard output.
#[derive(Drop)]
pub struct StdSink<W> {
    writer: W,
    stopped: bool,
    faults: u64,
}

impl<W: Write> StdSink<W> {
    /// A sink that hasn't stopped, without faults so far.
    pub fn new(writer: W) -> StdSink<W>
        ensures view { sink_view result ≡ counted_sink false 0 }
        ensures writer { writer_of result ≡ writer }
    {
        StdSink {
            writer,
            stopped: false,
            faults: 0,
        }
    }
}

impl<W: Write> Sink for StdSink<W> {
    ghost shows = { sink_view };

    fn write(&mut self, piece: &[u8]) -> Result<usize, EdgeFault>
        requires { 0 < length piece.now }
        ensures bound { IfOk result (λ n. n ≤ length piece.now) }
        ensures bytes { WriteAppends (W.contents (writer_of self.old)) (W.contents (writer_of self.new)) result piece.now }
        ensures stopped { (sink_view self.new).stopped ≡ ((sink_view self.old).stopped || moved_none result) }
        ensures memory { result ≢ Err EdgeFault.Memory }
        ensures faults { (sink_view self.new).faults ≡ call_faults result (sink_view self.old).faults }
    {
        match write_once(&mut self.writer, piece) {
            Ok(count) => {
                self.stopped |= count == 0;
                Ok(count)
            }
            Err(_) => {
                raise(&mut self.faults);
                Err(EdgeFault::Failed)
            }
        }
    }
}
