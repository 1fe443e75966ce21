// Standard streams that another process may have made non-blocking.
ghost use Rattle.std.specs.Prelude.{◌≡◌, ◌≢◌, ◌↔◌, IfErr, IsTrue};
ghost use Rattle.std.specs.Io.{ReadsAtMost, WritesAtMost};
ghost use Rattle.std.specs.Io.KnownBytes.{ReadConsumes, WriteAppends};
ghost use Rattle.std.specs.IoError.{error_kind};
ghost use Rattle.edge_streams.specs.Streams.{beneath};

use crate::clock::PAUSE_MILLIS;
use std::io::{ErrorKind, Read, Write};
use std::time::Duration;
use std::{io, rt, thread};

/// A stream that waits if the one beneath has nothing, or can take nothing, at the moment.
///
/// A standard stream is shared with other processes, and each of them can make it non-blocking. Then a full pipe or terminal answers with a fault,
/// and what a compiler said would be lost.
#[derive(Drop)]
pub struct WaitingStream<R, S> {
    rt: R,
    stream: S,
}

impl<R, S> WaitingStream<R, S> {
    /// Over this stream.
    pub fn new(rt: R, stream: S) -> WaitingStream<R, S>
        ensures { beneath result ≡ stream }
    {
        WaitingStream { rt, stream }
    }
}

impl<R: rt::Clock, S> WaitingStream<R, S> {
    fn pause(&self) {
        thread::sleep(&self.rt, Duration::from_millis(PAUSE_MILLIS));
    }
}

impl<R: rt::Clock, S: Read> Read for WaitingStream<R, S> {
    ghost remaining = { λ s. S.remaining (beneath s) };

    #[tactic(auto, using(crate::proofs::KnownLemmas::kept_bytes))]
    fn read(&mut self, room: &mut [u8]) -> io::Result<usize>
        ensures bound { ReadsAtMost result room.new }
        ensures bytes { ReadConsumes (S.remaining (beneath self.old)) (S.remaining (beneath self.new)) result room.new }
        ensures waited { IfErr result (λ error. error_kind error ≢ ErrorKind.WouldBlock) }
    {
        for _ in 0..u64::MAX {
            match self.stream.read(room) {
                Err(error) if is_blocked(&error) => self.pause(),
                moved => return moved,
            }
        }
        Err(io::Error::from(ErrorKind::Other))
    }
}

impl<R: rt::Clock, S: Write> Write for WaitingStream<R, S> {
    ghost contents = { λ s. S.contents (beneath s) };

    #[tactic(auto, using(crate::proofs::KnownLemmas::kept_bytes))]
    fn write(&mut self, piece: &[u8]) -> io::Result<usize>
        ensures bound { WritesAtMost result piece.now }
        ensures bytes { WriteAppends (S.contents (beneath self.old)) (S.contents (beneath self.new)) result piece.now }
        ensures waited { IfErr result (λ error. error_kind error ≢ ErrorKind.WouldBlock) }
    {
        for _ in 0..u64::MAX {
            match self.stream.write(piece) {
                Err(error) if is_blocked(&error) => self.pause(),
                moved => return moved,
            }
        }
        Err(io::Error::from(ErrorKind::Other))
    }

    fn flush(&mut self) -> io::Result<()> {
        self.stream.flush()
    }
}

/// Whether a call moved nothing only because the stream would have to be waited for.
fn is_blocked(error: &io::Error) -> bool
    ensures { IsTrue result ↔ error_kind error.now ≡ ErrorKind.WouldBlock }
{
    error.kind() == ErrorKind::WouldBlock
}
