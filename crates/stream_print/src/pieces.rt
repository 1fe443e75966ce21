//! Texts for two sinks, in order.

ghost use Rattle.std.specs.Prelude.{[], ◌∷◌, OnOk, IfErr};
ghost use Rattle.stream_print.specs.Prints.{sinks_view, Printed, PrintedPart, BothGoOn, Later};

use crate::{PrintStop, print};
use edge_traits::Sink;
use farm_types::Bytes;

/// One of the two sinks of a program: that of its output, or that of its errors.
#[derive(Clone, Copy, Debug, PartialEq, Eq, Drop)]
pub enum SinkKind {
    Out,
    Err,
}

/// A text for a sink.
#[derive(Debug, Drop)]
pub struct Piece {
    pub sink: SinkKind,
    pub bytes: Bytes,
}

/// Prints a text on its sink.
pub fn print_piece<O: Sink, E: Sink>(
    piece: &Piece,
    out: &mut O,
    err: &mut E,
) -> Result<(), PrintStop>
    ensures all { OnOk result (Printed (sinks_view O.shows E.shows out.old err.old)
        (sinks_view O.shows E.shows out.new err.new) (piece.now ∷ [])) }
    ensures part { IfErr result (λ stop. PrintedPart (piece.now ∷ []) stop
        (sinks_view O.shows E.shows out.old err.old)
        (sinks_view O.shows E.shows out.new err.new)) }
    ensures goes_on { OnOk result (BothGoOn (sinks_view O.shows E.shows out.old err.old)
        (sinks_view O.shows E.shows out.new err.new)) }
    ensures later { Later (sinks_view O.shows E.shows out.old err.old)
        (sinks_view O.shows E.shows out.new err.new) }
{
    match piece.sink {
        SinkKind::Out => print(out, piece.bytes.as_slice()),
        SinkKind::Err => print(err, piece.bytes.as_slice()),
    }
}

/// Prints texts in order. After an `Err` the sinks have got some first texts whole, and a first part of
/// the next one.
pub fn print_all<O: Sink, E: Sink>(
    pieces: &[Piece],
    out: &mut O,
    err: &mut E,
) -> Result<(), PrintStop>
    ensures all { OnOk result (Printed (sinks_view O.shows E.shows out.old err.old)
        (sinks_view O.shows E.shows out.new err.new) pieces.now) }
    ensures part { IfErr result (λ stop. PrintedPart pieces.now stop
        (sinks_view O.shows E.shows out.old err.old)
        (sinks_view O.shows E.shows out.new err.new)) }
    ensures goes_on { OnOk result (BothGoOn (sinks_view O.shows E.shows out.old err.old)
        (sinks_view O.shows E.shows out.new err.new)) }
    ensures later { Later (sinks_view O.shows E.shows out.old err.old)
        (sinks_view O.shows E.shows out.new err.new) }
{
    for piece in pieces {
        print_piece(piece, out, err)?;
    }
    Ok(())
}
