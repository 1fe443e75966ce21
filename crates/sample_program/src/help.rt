//! What `--help` and `--version` print (man/scc.1 says the same).

ghost use Rattle.std.specs.Prelude.{◌≡◌, [], ◌∷◌, map, string_bytes, None, Some, MatchOption};
ghost use Rattle.sample_program.specs.Helps.{told_text};

/// What `scc --version` prints.
pub const VERSION: &[u8] = b"scc 0.1\n";

/// What `scc --help` prints.
pub const HELP: &[u8] = b"Usage: scc -c|-S|-E [OPTION]... FILE
       scc --link OBJECT... -o IMAGE
       scc --run IMAGE
Compiles a source of the sample language, links objects, or runs an image.

  -c, -S       write the object to a file
  -E           write the preprocessed text to standard output
  -o OBJECT    the object's file
  -I FOLDER    look up included files in FOLDER too
  -D NAME=V    let NAME stand for V; without =V, for 1

The first of -c, -S and -E counts. Other words that begin with - are passed over.

  --link       make one image of 1 to 512 objects
  --run        print the number of main in an image
";

// What a word asks for only.
fn told_by(word: &str) -> Option<&'static [u8]>
    ensures { MatchOption result (told_text (word.now ∷ []) ≡ None) (λ text. told_text (word.now ∷ []) ≡ Some text.now) }
{
    match word {
        "--help" => Some(HELP),
        "--version" => Some(VERSION),
        _ => None,
    }
}

/// The text that the words ask for, if they are `--help` or `--version` only.
pub(crate) fn told_text(words: &[String]) -> Option<&'static [u8]>
    ensures { MatchOption result (told_text (map string_bytes words.now) ≡ None) (λ text. told_text (map string_bytes words.now) ≡ Some text.now) }
{
    match words {
        [word] => told_by(word.as_str()),
        _ => None,
    }
}
