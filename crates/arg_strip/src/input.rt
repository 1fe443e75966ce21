//! Commands that read standard input.

ghost use Rattle.std.specs.Prelude.{◌≡◌};
ghost use Rattle.arg_strip.specs.Checks.{is_dash, reads_input};

use arg_scan::{Part, Role, part_of};
use farm_types::Bytes;
use option_table::gcc_table;

/// Whether a command names the standard input as a file: by the word `-` in place of a source or an option. It takes no memory.
pub fn reads_input(words: &[Bytes]) -> bool
    ensures { result ≡ reads_input words.now }
{
    let table = gcc_table();
    let mut owner = None;
    let mut reads = false;
    for (at, word) in words.iter().enumerate() {
        let part = part_of(&table, owner, at, word);
        reads |= is_dash(part);
        owner = part.owed();
    }
    reads
}

fn is_dash(part: Part) -> bool
    ensures { result ≡ is_dash part }
{
    matches!(part, Part::Word(Role::Dash))
}
