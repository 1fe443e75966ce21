//! The names of options.

ghost use Rattle.std.specs.Prelude.{◌≡◌};
ghost use Rattle.farmd_options.specs.Names.{option_named};
ghost use Rattle.farmd_options.specs.Options.{is_of, repeats};

/// The name of an option of `farmd`. Each has a value, the word after it.
#[derive(Clone, Copy, Debug, PartialEq, Eq)]
pub enum OptionName {
    /// `--compiler`
    Compiler,
    /// `--port`
    Port,
    /// `--listen`
    Listen,
    /// `--jobs`
    Jobs,
    /// `--serve`
    Serve,
    /// `--allow`
    Allow,
    /// `--deny`
    Deny,
    /// `--cache`
    Cache,
    /// `--tools`
    Tools,
    /// `--job-lifetime`
    JobLifetime,
    /// `--shared-cache`
    SharedCache,
}

// What may be given more than once.
#[derive(Clone, Copy, Debug, PartialEq, Eq)]
pub(crate) enum Kind {
    Compiler,
    Rule,
    Tools,
}

impl OptionName {
    // Whether the option may be given more than once.
    pub(crate) fn repeats(self) -> bool
        ensures { result ≡ repeats self }
    {
        matches!(
            self,
            OptionName::Compiler | OptionName::Allow | OptionName::Deny | OptionName::Tools
        )
    }
}

impl Kind {
    // Whether an option is of this kind.
    pub(crate) fn has(self, option: Option<OptionName>) -> bool
        ensures { result ≡ is_of self option }
    {
        match (self, option) {
            (Kind::Compiler, Some(OptionName::Compiler)) => true,
            (Kind::Rule, Some(OptionName::Allow | OptionName::Deny)) => true,
            (Kind::Tools, Some(OptionName::Tools)) => true,
            _ => false,
        }
    }
}

// The option that a word names.
pub(crate) fn parse_option(word: &str) -> Option<OptionName>
    ensures { result ≡ option_named word.now }
{
    match word {
        "--compiler" => Some(OptionName::Compiler),
        "--port" => Some(OptionName::Port),
        "--listen" => Some(OptionName::Listen),
        "--jobs" => Some(OptionName::Jobs),
        "--serve" => Some(OptionName::Serve),
        "--allow" => Some(OptionName::Allow),
        "--deny" => Some(OptionName::Deny),
        "--cache" => Some(OptionName::Cache),
        "--tools" => Some(OptionName::Tools),
        "--job-lifetime" => Some(OptionName::JobLifetime),
        "--shared-cache" => Some(OptionName::SharedCache),
        _ => None,
    }
}
