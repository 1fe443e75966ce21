//! What is printed about words that are no command.

ghost use Rattle.std.specs.Prelude.{◌≡◌, map, string_bytes};
ghost use Rattle.refusal_reasons.specs.Advice.{advice_on, asks_for_help, behind_option, first_advice};

/// What is printed about words that are no command.
#[derive(Clone, Copy, Debug, PartialEq, Eq)]
pub enum Advice {
    /// There is no word.
    NoCommand,
    /// The first word, as `help` and `-h`, asks for help in another way.
    HelpByOption,
    /// The first word is no command.
    UnknownCommand,
    /// `--help` and `--version` are used by themselves, or `--help` after a command.
    BehindOption,
    /// A word is missing at the end.
    MissingWord,
    /// The word fits no command, option or value there.
    UnfitWord,
}

/// What is printed about words if the one at this place doesn't fit.
pub fn advice_on(words: &[String], place: usize) -> Advice
    ensures { result ≡ advice_on (map string_bytes words.now) place }
{
    match words.split_first() {
        None => Advice::NoCommand,
        Some((first, more)) => {
            if place == 0 {
                first_advice(first.as_str())
            } else if is_alone(first.as_str()) {
                Advice::BehindOption
            } else if place > more.len() {
                Advice::MissingWord
            } else {
                Advice::UnfitWord
            }
        }
    }
}

// What is printed about a first word that is no command.
fn first_advice(word: &str) -> Advice
    ensures { result ≡ first_advice word.now }
{
    if asks_for_help(word) {
        Advice::HelpByOption
    } else {
        Advice::UnknownCommand
    }
}

fn asks_for_help(word: &str) -> bool
    ensures { result ≡ asks_for_help word.now }
{
    word == "help" || word == "-h" || word == "-help" || word == "-?"
}

fn is_alone(word: &str) -> bool
    ensures { result ≡ behind_option word.now }
{
    word == "--help" || word == "--version"
}
