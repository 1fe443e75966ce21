//! What a command's words say of a dependency file.

ghost use Rattle.std.specs.Prelude.{◌≡◌};
ghost use Rattle.option_table.specs.Gcc.{gcc_rows};
ghost use Rattle.dependency_options.specs.Words.{asked_of, option_named, option_of};

use arg_scan::{Part, Role, part_of};
use farm_types::Bytes;
use option_table::{GCC_ROWS, OptionTable, gcc_table};

/// What an option says of a dependency file.
#[derive(Clone, Copy, Debug, PartialEq, Eq)]
pub enum DependencyOption {
    /// `-MD` and `-MMD`: one is to be written.
    List,
    /// `-MF`: its name.
    File,
    /// `-MT` and `-MQ`: a target in it.
    Target,
}

/// What a command's words say of a dependency file.
#[derive(Clone, Copy, Debug, PartialEq, Eq)]
pub struct Asked {
    /// One is to be written.
    pub list: bool,
    /// It is named.
    pub file: bool,
    /// A target is named.
    pub target: bool,
}

impl Asked {
    ghost use Rattle.dependency_options.specs.Words.{noted};

    // Adds what an option says.
    fn note(&mut self, option: Option<DependencyOption>)
        ensures { self.new ≡ noted option self.old }
    {
        match option {
            Some(DependencyOption::List) => self.list = true,
            Some(DependencyOption::File) => self.file = true,
            Some(DependencyOption::Target) => self.target = true,
            None => {}
        }
    }
}

/// What the words say of a dependency file. It takes no memory.
pub(crate) fn asked_of(words: &[Bytes]) -> Asked
    ensures { result ≡ asked_of words.now }
{
    let table = gcc_table();
    let mut owner = None;
    let mut asked = Asked {
        list: false,
        file: false,
        target: false,
    };
    for (at, word) in words.iter().enumerate() {
        let part = part_of(&table, owner, at, word);
        asked.note(option_of(&table, part, word));
        owner = part.owed();
    }
    asked
}

// What a word says, by its use.
fn option_of(table: &OptionTable<GCC_ROWS>, part: Part, word: &Bytes) -> Option<DependencyOption>
    requires { table.now ≡ gcc_rows }
    ensures { result ≡ option_of part word.now }
{
    match part {
        Part::Word(Role::Flag { .. }) => match table.find(word) {
            Some(found) => option_named(table.row(found.row).spelling.as_slice()),
            None => None,
        },
        _ => None,
    }
}

fn option_named(spelling: &[u8]) -> Option<DependencyOption>
    ensures { result ≡ option_named spelling.now }
{
    if spelling == b"-MD".as_slice() || spelling == b"-MMD".as_slice() {
        Some(DependencyOption::List)
    } else if spelling == b"-MF".as_slice() {
        Some(DependencyOption::File)
    } else if spelling == b"-MT".as_slice() || spelling == b"-MQ".as_slice() {
        Some(DependencyOption::Target)
    } else {
        None
    }
}
