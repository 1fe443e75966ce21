//! The tokens of a request.

ghost use Rattle.std.specs.Prelude.{◌≡◌, ◌≤◌, ◌+◌, ◌<◌, ◌^◌, ℕ, length};
ghost use Rattle.farm_types.specs.Limits.{words_bytes_max};
ghost use Rattle.wire_tokens.specs.Format;
ghost use Rattle.compile_request.specs.Parts.{due_of};

use farm_types::limits::{SOURCE_MAX, WORD_MAX, WORDS_BYTES_MAX, WORDS_MAX};
use wire_tokens::{ARGC, ARGV, DIST, DOTI, Name4, RequestFault, Which};

/// The token that is due.
#[derive(Clone, Copy, Debug)]
pub enum Part {
    Dist,
    Argc,
    Argv,
    Doti,
}

pub fn name_of(part: Part) -> Name4
    ensures { (before : ℕ) → result.0 ≡ (due_of part before).name }
{
    match part {
        Part::Dist => DIST,
        Part::Argc => ARGC,
        Part::Argv => ARGV,
        Part::Doti => DOTI,
    }
}

/// How many bytes follow a token of this number.
pub fn body_len(part: Part, n: u32) -> usize
    ensures { (before : ℕ) → result ≡ Format.body_len (due_of part before) n }
{
    match part {
        Part::Dist | Part::Argc => 0,
        Part::Argv | Part::Doti => n as usize,
    }
}

/// What is wrong with a token's number, after words with this many bytes.
pub fn refusal(part: Part, before: usize, n: u32) -> Option<RequestFault>
    requires { before ≤ words_bytes_max }
    ensures { result ≡ (due_of part before).refused n }
{
    match part {
        Part::Dist if n != 1 => Some(RequestFault::BadVersion { n }),
        Part::Argc if n < 1 || n as usize > WORDS_MAX => Some(RequestFault::Count { n }),
        Part::Argv if n as usize > WORD_MAX => Some(too_large(Which::Argv, n)),
        Part::Argv if before + n as usize > WORDS_BYTES_MAX => Some(too_large(Which::Words, n)),
        Part::Doti if n as usize > SOURCE_MAX => Some(too_large(Which::Doti, n)),
        _ => None,
    }
}

fn too_large(which: Which, len: u32) -> RequestFault
    ensures { result ≡ RequestFault.TooLarge which len }
{
    RequestFault::TooLarge { which, len }
}
