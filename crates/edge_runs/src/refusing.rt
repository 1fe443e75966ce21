// The reply to words of which one isn't let through.
ghost use Rattle.std.specs.Prelude.{◌≡◌, ◌≤◌, [], take, length, slice_get, IfOk, IfErr};
ghost use Rattle.edge_traits.specs.Stations.{IsWithin};
ghost use Rattle.edge_runs.specs.Commands.{NamesNoStream};
ghost use Rattle.edge_runs.specs.Refusals.{shown_word, shown_word_max, unserved_message, unserved_reply};

use edge_traits::{Bounds, StationFault};
use farm_types::{Bytes, Ran, Word};
use std::alloc::{AllocError, Global};

/// The wait status of a reply that says that a word isn't let through: exit code 111.
const NOT_LET_THROUGH: u32 = 111 * 256;

/// The most bytes of a word that a message has.
const SHOWN_WORD_MAX: usize = 64;

/// The reply in place of a run of these words, of which the one at this place isn't let through. Nothing is run.
pub fn refusal_of(
    alloc: Global,
    words: &[Word],
    place: usize,
    bounds: &Bounds,
) -> Result<Ran, StationFault>
    ensures reply { IfOk result (λ ran. ran ≡ unserved_reply bounds.now.err words.now place) }
    ensures within { IfOk result (IsWithin bounds.now) }
    ensures memory { IfErr result (λ fault. fault ≡ StationFault.Memory) }
{
    let message = message_of(alloc, words, place)?;
    let bound = bounds.err as usize;
    let err = if bound < message.len() {
        Bytes::from_slice(alloc, &message.as_slice()[..bound])?
    } else {
        message
    };
    Ok(Ran {
        status: NOT_LET_THROUGH,
        out: Bytes::new(alloc),
        err,
        object: Bytes::new(alloc),
    })
}

/// `farmd: not let through: WORD`, with a line feed.
fn message_of(alloc: Global, words: &[Word], place: usize) -> Result<Bytes, AllocError>
    ensures { IfOk result (λ message. message ≡ unserved_message (slice_get words.now place)) }
{
    let mut message = Bytes::from_slice(alloc, b"farmd: not let through: ")?;
    message.try_extend(shown(words, place))?;
    message.try_push(b'\n')?;
    Ok(message)
}

/// The front of the text of the word at this place.
fn shown(words: &[Word], place: usize) -> &[u8]
    ensures { result.now ≡ shown_word (slice_get words.now place) }
{
    match words.get(place) {
        Some(Word::Text(bytes)) => front_of(bytes.as_slice()),
        _ => &[],
    }
}

fn front_of(text: &[u8]) -> &[u8]
    ensures { result.now ≡ take shown_word_max text.now }
{
    if SHOWN_WORD_MAX < text.len() {
        &text[..SHOWN_WORD_MAX]
    } else {
        text
    }
}
