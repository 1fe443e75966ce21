//! The words of `farm share`.

ghost use Rattle.std.specs.Prelude.{◌≡◌, ℕ, Option, Some, None, map, string_bytes};
ghost use Rattle.std.specs.Option.{option_copied};
ghost use Rattle.farm_options.specs.Share.{command_behind, hosts_behind, is_option, share_meant, share_read};

use crate::name::is_help;

/// What the words after `share` ask for.
#[derive(Clone, Copy, Debug)]
pub enum Share<'a> {
    /// `--help`
    Help,
    /// A command to run, at least one word, with the text of the option `--hosts`.
    Run {
        hosts: Option<&'a str>,
        command: &'a [String],
    },
}

// A command after the host list that is given.
fn command_behind<'a>(
    place: usize,
    hosts: Option<&'a str>,
    words: &'a [String],
) -> Result<Share<'a>, usize>
    ensures { share_meant result ≡ command_behind place (option_copied hosts.entry) (map string_bytes words.now) }
{
    match words {
        [] => Err(place),
        _ => Ok(Share::Run {
            hosts,
            command: words,
        }),
    }
}

fn hosts_behind(words: &[String]) -> Result<Share<'_>, usize>
    ensures { share_meant result ≡ hosts_behind (map string_bytes words.now) }
{
    match words {
        [] => Err(2),
        [hosts, command @ ..] => command_behind(3, Some(hosts.as_str()), command),
    }
}

fn is_option(word: &str) -> bool
    ensures { result ≡ is_option word.now }
{
    word.starts_with("--")
}

/// What the words after `share` ask for. Err is the place of the first that doesn't fit; `share` has place 0. That of a missing word is the
/// number of all words. Takes no memory.
pub fn parse_share(words: &[String]) -> Result<Share<'_>, usize>
    ensures { share_meant result ≡ share_read (map string_bytes words.now) }
{
    match words {
        [] => Err(1),
        [word, rest @ ..] if word.as_str() == "--hosts" => hosts_behind(rest),
        [word, rest @ ..] if is_help(word.as_str()) && rest.is_empty() => Ok(Share::Help),
        [word, ..] if is_option(word.as_str()) => Err(1),
        _ => Ok(Share::Run {
            hosts: None,
            command: words,
        }),
    }
}
