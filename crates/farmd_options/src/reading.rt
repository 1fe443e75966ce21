//! The words that are options.

ghost use Rattle.std.specs.Prelude.{◌≡◌, ◌≤◌, List, map, length, string_bytes, IfErr};
ghost use Rattle.std.specs.Option.{option_copied};
ghost use Rattle.option_reader.specs.Items.{Item};
ghost use Rattle.option_reader.specs.Readings.{AreOptions};
ghost use Rattle.farmd_options.specs.declared.name.OptionName.TheVariants as names;
ghost use Rattle.farmd_options.specs.Options as says;
ghost use Rattle.farmd_options.specs.Options.{GivenBy, Reads, Says, row_of};

use crate::name::{Kind, OptionName, parse_option};
use crate::options::Options;
use crate::setting::{
    count_in, is_value, read_cache, read_job_lifetime, read_jobs, read_listen, read_port,
    read_serve, read_shared,
};
use option_reader::{OptionTable, Row, check_options, value_of};

/// The options of `farmd`.
struct DaemonOptions;

// What is known of an option.
fn row_of(option: Option<OptionName>) -> Option<Row>
    ensures { result ≡ row_of option }
{
    match option {
        Some(option) => Some(Row {
            takes_value: true,
            repeats: option.repeats(),
        }),
        None => None,
    }
}

impl OptionTable for DaemonOptions {
    ghost use Rattle.farmd_options.specs.Options.{options};

    ghost table = { λ _. options };

    fn row(&self, word: &str) -> Option<Row> {
        row_of(parse_option(word))
    }

    fn fits(&self, before: &[String], name: &str, value: &str) -> bool {
        is_value(parse_option(name), before, value.as_bytes())
    }
}

fn port_in(value: Option<&str>) -> Option<u16>
    ensures { GivenBy names.Port (option_copied value.entry) result }
{
    match value {
        Some(word) => read_port(word.as_bytes()),
        None => None,
    }
}

fn listen_in(value: Option<&str>) -> Option<u32>
    ensures { GivenBy names.Listen (option_copied value.entry) result }
{
    match value {
        Some(word) => read_listen(word.as_bytes()),
        None => None,
    }
}

fn jobs_in(value: Option<&str>) -> Option<u8>
    ensures { GivenBy names.Jobs (option_copied value.entry) result }
{
    match value {
        Some(word) => read_jobs(word.as_bytes()),
        None => None,
    }
}

fn serve_in(value: Option<&str>) -> Option<u32>
    ensures { GivenBy names.Serve (option_copied value.entry) result }
{
    match value {
        Some(word) => read_serve(word.as_bytes()),
        None => None,
    }
}

fn cache_in(value: Option<&str>) -> Option<u8>
    ensures { GivenBy names.Cache (option_copied value.entry) result }
{
    match value {
        Some(word) => read_cache(word.as_bytes()),
        None => None,
    }
}

fn shared_in(value: Option<&str>) -> Option<u32>
    ensures { GivenBy names.SharedCache (option_copied value.entry) result }
{
    match value {
        Some(word) => read_shared(word.as_bytes()),
        None => None,
    }
}

fn job_lifetime_in(value: Option<&str>) -> Option<u32>
    ensures { GivenBy names.JobLifetime (option_copied value.entry) result }
{
    match value {
        Some(word) => read_job_lifetime(word.as_bytes()),
        None => None,
    }
}

// What options say.
fn options_in(words: &[String]) -> Options
    requires { (items : List Item) × AreOptions says.options (map string_bytes words.now) items }
    ensures { (items : List Item) → AreOptions says.options (map string_bytes words.now) items → Says (map string_bytes words.now) items result }
{
    Options {
        port: port_in(value_of(&DaemonOptions, words, "--port")),
        listen: listen_in(value_of(&DaemonOptions, words, "--listen")),
        jobs: jobs_in(value_of(&DaemonOptions, words, "--jobs")),
        serve: serve_in(value_of(&DaemonOptions, words, "--serve")),
        cache: cache_in(value_of(&DaemonOptions, words, "--cache")),
        shared: shared_in(value_of(&DaemonOptions, words, "--shared-cache")),
        job_lifetime: job_lifetime_in(value_of(&DaemonOptions, words, "--job-lifetime")),
        compilers: count_in(Kind::Compiler, words) as u32,
        rules: count_in(Kind::Rule, words) as u32,
        tools: count_in(Kind::Tools, words) as u32,
    }
}

/// What options say, or the place of the first word that isn't right; that of a missing word is the number of words. It takes
/// no memory.
pub(crate) fn read_options(words: &[String]) -> Result<Options, usize>
    ensures read { Reads (map string_bytes words.now) result }
    ensures within { IfErr result (λ place. place ≤ length words.now) }
{
    match check_options(&DaemonOptions, words) {
        Ok(_) => Ok(options_in(words)),
        Err(place) => Err(place),
    }
}
