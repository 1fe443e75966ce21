// Files and pipes that are read to their ends, within a bound.
ghost use Rattle.std.specs.Prelude.{◌≡◌, ◌+◌, ◌-◌, ◌^◌, ◌<◌, ◌≤◌, ◌++◌, Ok, min, length, IfOk};
ghost use Rattle.std.specs.Io.KnownBytes.{IsAtEnd};
ghost use Rattle.edge_streams.specs.Reading.{IsReadWithin, IsReadOf, HasRead};

use crate::retrying::read_once;
use farm_types::Bytes;
use farm_types::limits::PIECE_MAX;
use std::alloc::{AllocError, Global};
use std::io::Read;

/// What reading a stream to its end gave.
#[derive(Drop)]
pub enum Reading {
    /// All its bytes.
    Whole(Bytes),
    /// The stream has more bytes than the bound: this many.
    Over(u64),
    /// A read failed.
    Failed,
}

/// How many bytes of room a stream is given at first, by how many are expected: none if these are above the bound. A long one has room for as many as the bound allows: the C
/// library gives a block of such a size back to the system at once, and only what is read of it is touched.
pub fn first_room(expected: u64, bound: u32) -> usize
    ensures none { bound < expected → result ≡ 0 }
    ensures some { expected ≤ bound → expected ≤ result }
    ensures bound { result ≤ bound }
{
    if expected > u64::from(bound) {
        return 0;
    }
    if expected > LONG {
        return bound as usize;
    }
    expected as usize
}

/// Reads a stream to its end, into so much room at first. Past the bound it counts the bytes and keeps none.
///
/// A short piece serves until the stream fills it, so no long one is cleared for a stream of few bytes.
#[tactic(auto, using(crate::proofs::ReadLemmas::reading))]
pub fn read_to_end<S: Read>(
    stream: &mut S,
    alloc: Global,
    bound: u32,
    room: usize,
) -> Result<Reading, AllocError>
    ensures within { IfOk result (IsReadWithin bound) }
    ensures read { IfOk result (IsReadOf (S.remaining stream.old)) }
{
    let mut so_far = SoFar {
        bytes: Bytes::from_vec(Vec::with_capacity(alloc, room)?),
        total: 0,
    };
    let stop = match read_on(stream, &mut so_far, bound, &mut [0u8; SHORT])? {
        Stop::Filled => read_rest(stream, &mut so_far, bound)?,
        stop => stop,
    };
    Ok(match stop {
        Stop::AtEnd if so_far.total > u64::from(bound) => Reading::Over(so_far.total),
        Stop::AtEnd => Reading::Whole(so_far.bytes),
        _ => Reading::Failed,
    })
}

/// Reads what is left of a stream that has filled a short piece.
#[tactic(auto, using(crate::proofs::ReadLemmas::reading))]
fn read_rest<S: Read>(stream: &mut S, so_far: &mut SoFar, bound: u32) -> Result<Stop, AllocError>
    ensures read { IfOk result (λ stop. HasRead (S.remaining stream.old) (S.remaining stream.new) bound so_far.old so_far.new) }
    ensures end { result ≡ Ok Stop.AtEnd → IsAtEnd (S.remaining stream.new) }
{
    let mut piece = [0u8; PIECE_MAX];
    for _ in 0..u64::MAX {
        match read_on(stream, so_far, bound, &mut piece)? {
            Stop::Filled => {}
            stop => return Ok(stop),
        }
    }
    Ok(Stop::Failed)
}

/// Reads on until the stream ends or fills the piece.
#[tactic(auto, using(crate::proofs::ReadLemmas::reading))]
fn read_on<S: Read>(
    stream: &mut S,
    so_far: &mut SoFar,
    bound: u32,
    piece: &mut [u8],
) -> Result<Stop, AllocError>
    requires { 0 < length piece.old }
    ensures read { IfOk result (λ stop. HasRead (S.remaining stream.old) (S.remaining stream.new) bound so_far.old so_far.new) }
    ensures end { result ≡ Ok Stop.AtEnd → IsAtEnd (S.remaining stream.new) }
    ensures length { length piece.new ≡ length piece.old }
{
    for _ in 0..u64::MAX {
        let count = match read_once(stream, piece) {
            Ok(0) => return Ok(Stop::AtEnd),
            Ok(count) => count,
            Err(_) => return Ok(Stop::Failed),
        };
        so_far.count_in(bound, &piece[..count])?;
        if count == piece.len() {
            return Ok(Stop::Filled);
        }
    }
    Ok(Stop::Failed)
}

/// What was read of a stream so far.
#[derive(Drop)]
pub(crate) struct SoFar {
    /// Its bytes, as long as they are within the bound.
    pub bytes: Bytes,
    /// How many bytes it gave.
    pub total: u64,
}

impl SoFar {
    /// Counts a piece in, and keeps it within the bound.
    fn count_in(&mut self, bound: u32, piece: &[u8]) -> Result<(), AllocError>
        ensures counted { self.new.total ≡ min (self.old.total + length piece.now) (2 ^ 64 - 1) }
        ensures kept { IfOk result (λ done. self.new.total ≤ bound → self.new.bytes ≡ self.old.bytes ++ piece.now) }
    {
        self.total = self.total.saturating_add(piece.len() as u64);
        if self.total <= u64::from(bound) {
            self.bytes.try_extend(piece)?;
        }
        Ok(())
    }
}

/// Why reading on stopped.
#[derive(Drop)]
enum Stop {
    /// The stream is at its end.
    AtEnd,
    /// It filled the whole piece.
    Filled,
    /// A read failed.
    Failed,
}

/// The bytes of a short piece.
const SHORT: usize = 4_096;

/// A stream of more bytes is a long one.
const LONG: u64 = 4_194_304;
