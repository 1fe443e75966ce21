//! One text on one sink.

ghost use Rattle.std.specs.Prelude.{ℕ, ◌<◌, ◌≤◌, length, take, OnOk, OnErr, IsErrOf};
ghost use Rattle.edge_traits.specs.Told.{Grew};
ghost use Rattle.stream_print.specs.Prints.{GoesOn, DidStop};

use edge_traits::{EdgeFault, Sink};

/// Why not everything was printed.
#[derive(Clone, Copy, Debug, PartialEq, Eq, Drop)]
pub enum PrintStop {
    /// The sink failed, or took 0 bytes.
    Stopped,
    /// The sink ran out of memory.
    Memory,
}

/// Writes all the bytes. After an `Err` the sink has got a first part of them, not all.
pub fn print<W: Sink>(sink: &mut W, bytes: &[u8]) -> Result<(), PrintStop>
    ensures all { OnOk result (Grew (W.shows sink.old).written (W.shows sink.new).written bytes.now) }
    ensures part { OnErr result ((n : ℕ) × (n < length bytes.now)
        × Grew (W.shows sink.old).written (W.shows sink.new).written (take n bytes.now)) }
    ensures later { (W.shows sink.old).faults ≤ (W.shows sink.new).faults }
    ensures stopped { IsErrOf result PrintStop.Stopped → DidStop (W.shows sink.old) (W.shows sink.new) }
    ensures goes_on { OnOk result (GoesOn (W.shows sink.old) (W.shows sink.new)) }
    ensures memory { IsErrOf result PrintStop.Memory → GoesOn (W.shows sink.old) (W.shows sink.new) }
{
    let mut done = 0;
    'printing: while done < bytes.len() {
        match sink.write(&bytes[done..]) {
            Ok(0) => return Err(PrintStop::Stopped),
            Ok(count) => done += count,
            Err(EdgeFault::Failed) => return Err(PrintStop::Stopped),
            Err(EdgeFault::Memory) => return Err(PrintStop::Memory),
        }
    }
    Ok(())
}
