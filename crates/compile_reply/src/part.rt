//! The tokens of a reply.

ghost use Rattle.std.specs.Prelude.{◌≡◌};
ghost use Rattle.wire_tokens.specs.Format;
ghost use Rattle.compile_reply.specs.Decoding.{due_of};

use farm_types::limits::{MESSAGES_MAX, OBJECT_MAX};
use wire_tokens::{DONE, DOTO, Name4, ReplyFault, SERR, SOUT, STAT, Which};

/// The token that is due.
#[derive(Clone, Copy, Debug)]
pub enum Part {
    Done,
    Stat,
    Serr,
    Sout,
    Doto { status: u32 },
}

/// The name of the token.
pub fn name_of(part: Part) -> Name4
    ensures { result.0 ≡ (due_of part).name }
{
    match part {
        Part::Done => DONE,
        Part::Stat => STAT,
        Part::Serr => SERR,
        Part::Sout => SOUT,
        Part::Doto { .. } => DOTO,
    }
}

/// How many bytes follow a token of this number.
pub fn body_len(part: Part, n: u32) -> usize
    ensures { result ≡ Format.body_len (due_of part) n }
{
    match part {
        Part::Done | Part::Stat => 0,
        Part::Serr | Part::Sout | Part::Doto { .. } => n as usize,
    }
}

/// What is wrong with a token's number.
pub fn refusal(part: Part, n: u32) -> Option<ReplyFault>
    ensures { result ≡ (due_of part).refused n }
{
    match part {
        Part::Done if n != 1 => Some(ReplyFault::BadVersion { n }),
        Part::Serr if n as usize > MESSAGES_MAX => Some(too_large(Which::Serr, n)),
        Part::Sout if n as usize > MESSAGES_MAX => Some(too_large(Which::Sout, n)),
        Part::Doto { .. } if n as usize > OBJECT_MAX => Some(too_large(Which::Doto, n)),
        Part::Doto { status } if status != 0 && n != 0 => {
            Some(ReplyFault::ObjectWithFailure { status, len: n })
        }
        _ => None,
    }
}

fn too_large(which: Which, len: u32) -> ReplyFault
    ensures { result ≡ ReplyFault.TooLarge which len }
{
    ReplyFault::TooLarge { which, len }
}
