//! What `--help` and `--version` print (man/farm_jobs.1 says the same).

ghost use Rattle.std.specs.Prelude.{◌≡◌, map, string_bytes};
ghost use Rattle.compile_database.specs.Helps.{ask_of, asked, text_of};

/// What `farm_jobs --version` prints.
pub const VERSION: &[u8] = b"farm_jobs 0.1\n";

/// What `farm_jobs --help` prints.
pub const HELP: &[u8] = b"Usage: farm_jobs [OPTION]... <compile_commands.json
Writes the job list of a compile database: one command a line.

  farm_jobs <compile_commands.json | farm build --workers 8
                builds a CMake project; run it in the folder that the entries name

Options, in any order, each at most once:
  --folder F    take the entries whose directory is F; without it, all have to be
                of one directory
  --from N      pass over the first N of these, 0 to 999999999
  --count N     take at most N of the others, 1 to 512
  --help        print this, if it is the only word
  --version     print the version, if it is the only word

Exit status:
  0    the job list was written
  100  standard output or standard error failed
  101  bad words; the first word that doesn't fit is named, from 0
  105  no memory
  107  standard input can't be read, or has 67108864 bytes or more
  109  the text gives no job list; the entry is named, from 0
";

/// What is asked of the program itself.
#[derive(Clone, Copy, Debug, PartialEq, Eq, Drop)]
pub(crate) enum Ask {
    Help,
    Version,
}

/// The text that is asked for.
pub(crate) fn text_of(ask: Ask) -> &'static [u8]
    ensures { result.now ≡ text_of ask }
{
    match ask {
        Ask::Help => HELP,
        Ask::Version => VERSION,
    }
}

fn ask_of(word: &str) -> Option<Ask>
    ensures { result ≡ ask_of word.now }
{
    match word {
        "--help" => Some(Ask::Help),
        "--version" => Some(Ask::Version),
        _ => None,
    }
}

/// What the words ask for, if they are `--help` or `--version` only.
pub(crate) fn asked(words: &[String]) -> Option<Ask>
    ensures { result ≡ asked (map string_bytes words.now) }
{
    match words {
        [word] => ask_of(word.as_str()),
        _ => None,
    }
}
