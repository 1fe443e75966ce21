//! The names of commands and of options.

ghost use Rattle.std.specs.Prelude.{◌≡◌, bytes_eq, codes};
ghost use Rattle.farm_options.specs.Names.{first_word_named, has_option, option_named, takes_any_words, takes_value};

/// The name of a command.
#[derive(Clone, Copy, Debug, PartialEq, Eq)]
pub enum CommandName {
    /// `build`
    Build,
    /// `watch`
    Watch,
    /// `graph`
    Graph,
    /// `cc`
    Cc,
    /// `hosts`
    Hosts,
    /// `scan`
    Scan,
    /// `rehearse`
    Rehearse,
}

// What the first word asks for.
#[derive(Clone, Copy, Debug, PartialEq, Eq)]
pub(crate) enum FirstWord {
    Name(CommandName),
    Help,
    Version,
}

// The name of an option.
#[derive(Clone, Copy, Debug, PartialEq, Eq)]
pub(crate) enum OptionName {
    Hosts,
    Workers,
    Tries,
    Lines,
    NoFallback,
    NoRetry,
}

impl CommandName {
    // Whether the command has this option.
    pub(crate) fn has_option(self, option: OptionName) -> bool
        ensures { result ≡ has_option self option }
    {
        match self {
            CommandName::Watch => true,
            CommandName::Build | CommandName::Graph => !matches!(option, OptionName::Lines),
            CommandName::Hosts => matches!(option, OptionName::Hosts),
            CommandName::Cc | CommandName::Scan | CommandName::Rehearse => false,
        }
    }

    // Whether any words may follow the command's name.
    pub(crate) fn takes_any_words(self) -> bool
        ensures { result ≡ takes_any_words self }
    {
        matches!(self, CommandName::Cc | CommandName::Scan)
    }
}

impl OptionName {
    // Whether the word after the option's name is its value.
    pub(crate) fn takes_value(self) -> bool
        ensures { result ≡ takes_value self }
    {
        !matches!(self, OptionName::NoFallback | OptionName::NoRetry)
    }
}

// Whether a word is `--help`.
pub(crate) fn is_help(word: &str) -> bool
    ensures { result ≡ bytes_eq word.now (codes "--help") }
{
    word == "--help"
}

// What the first word asks for.
pub(crate) fn parse_first_word(word: &str) -> Option<FirstWord>
    ensures { result ≡ first_word_named word.now }
{
    match word {
        "build" => Some(FirstWord::Name(CommandName::Build)),
        "watch" => Some(FirstWord::Name(CommandName::Watch)),
        "graph" => Some(FirstWord::Name(CommandName::Graph)),
        "cc" => Some(FirstWord::Name(CommandName::Cc)),
        "hosts" => Some(FirstWord::Name(CommandName::Hosts)),
        "scan" => Some(FirstWord::Name(CommandName::Scan)),
        "rehearse" => Some(FirstWord::Name(CommandName::Rehearse)),
        "--help" => Some(FirstWord::Help),
        "--version" => Some(FirstWord::Version),
        _ => None,
    }
}

// The option that a word names.
pub(crate) fn parse_option_name(word: &str) -> Option<OptionName>
    ensures { result ≡ option_named word.now }
{
    match word {
        "--hosts" => Some(OptionName::Hosts),
        "--workers" => Some(OptionName::Workers),
        "--tries" => Some(OptionName::Tries),
        "--lines" => Some(OptionName::Lines),
        "--no-fallback" => Some(OptionName::NoFallback),
        "--no-retry" => Some(OptionName::NoRetry),
        _ => None,
    }
}
