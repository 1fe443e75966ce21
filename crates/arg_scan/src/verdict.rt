//! The class of a command by places.

ghost use Rattle.std.specs.Prelude.{◌≡◌};
ghost use Rattle.arg_scan.specs.Class.{HasCause, IsRemote, plan_of, verdict_of};

use crate::names::Ending;
use crate::part::part_of;
use crate::seen::Seen;
use crate::why::Why;
use farm_types::{Bytes, Words};
use option_table::gcc_table;

/// What a command asks for.
#[derive(Clone, Copy, Debug, PartialEq, Eq)]
pub enum Action {
    /// `-c`: an object.
    Compile,
    /// `-S`: assembly.
    Assemble,
}

/// The place of the name of the output.
#[derive(Clone, Copy, Debug, PartialEq, Eq)]
pub struct OutputPlace {
    /// The place of the word that is the name or holds it.
    pub at: usize,
    /// The byte of that word at which the name begins.
    pub from: usize,
}

/// How a command may be sent.
#[derive(Clone, Copy, Debug, PartialEq, Eq)]
pub struct Plan {
    pub action: Action,
    /// The place of the source.
    pub input: usize,
    /// The ending of the source's name.
    pub ending: Ending,
    /// The name of the output; without one it follows from the source's name.
    pub output: Option<OutputPlace>,
}

/// The class of a command by places.
#[derive(Clone, Copy, Debug, PartialEq, Eq)]
pub enum Verdict {
    /// There is no word.
    Empty,
    /// The command stays on this machine, for this reason, which is at this place. The place of a
    /// reason of the whole command is after the last word.
    Local { why: Why, at: usize },
    /// The command may be sent.
    Remote(Plan),
}

/// The class of a command. It takes no memory.
///
/// The rules are those of docs/command-words.md.
pub fn classify(words: &Words) -> Verdict
    ensures value { result ≡ verdict_of words.now }
    ensures cause { HasCause words.now result }
{
    verdict_by_places(words.as_slice())
}

fn verdict_by_places(words: &[Bytes]) -> Verdict
    ensures { result ≡ verdict_of words.now }
{
    if words.is_empty() {
        return Verdict::Empty;
    }
    let table = gcc_table();
    let mut seen = Seen::nothing();
    let mut owner = None;
    for (at, word) in words.iter().enumerate() {
        let part = part_of(&table, owner, at, word);
        if let Some(why) = seen.reason(part, word, at + 1 == words.len()) {
            return Verdict::Local { why, at };
        }
        seen.note(part, at, word);
        owner = part.owed();
    }
    seen.verdict(words.len())
}

/// How a command that may be sent may be sent. It takes no memory.
pub fn remote_plan(words: &Words) -> Plan
    requires { IsRemote words.now }
    ensures class { verdict_of words.now ≡ Verdict.Remote result }
    ensures value { result ≡ plan_of words.now }
{
    match classify(words) {
        Verdict::Remote(plan) => plan,
        _ => unreachable!(),
    }
}
