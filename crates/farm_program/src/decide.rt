//! What a command comes to before a job is run.
ghost use Rattle.std.specs.Prelude.{◌≡◌, ◌<◌, [], ◌∷◌, false, IfOk, length, map, option_copied, string_bytes};
ghost use Rattle.edge_traits.specs.Sources.{SourceView};
ghost use Rattle.farm_options.specs.Commands as commands;
ghost use Rattle.farm_options.specs.Commands.{meaning};
ghost use Rattle.farm_options.specs.Options.{given_in};
ghost use Rattle.farm_options.specs.Within.{AreWithin, IsWithin};
ghost use Rattle.farm_program.specs.Works.{Decides};

use crate::input::{read_graph, read_jobs};
use crate::settings::{Settings, configure};
use crate::work::{GraphWork, ListWork, Work};
use edge_traits::Source;
use farm_answers::{Refusal, Text, class_line, list_hosts};
use farm_options::{Command, Options, help_text, host_text, version_text};
use farm_types::{Bytes, Jobs, Words};
use std::alloc::{AllocError, Global};

/// The options of a command that takes none.
const NO_OPTIONS: Options<'static> = Options {
    hosts: None,
    workers: None,
    tries: None,
    lines: None,
    fallback: true,
    retry: true,
};

/// A call of the program: its command, the environment, and where its memory is from.
#[derive(Clone, Copy)]
pub struct Invocation<'a> {
    pub alloc: Global,
    pub command: Command<'a>,
    pub env: &'a [(String, String)],
}

// The words as the one job of a list.
fn one_job(alloc: Global, words: &[String]) -> Result<Jobs, AllocError>
    ensures { IfOk result (λ jobs. jobs ≡ map string_bytes words.now ∷ []) }
{
    let mut list = Words::new(alloc);
    for word in words {
        list.try_push(Bytes::from_slice(alloc, word.as_bytes())?)?;
    }
    let mut jobs = Jobs::new(alloc);
    jobs.try_push(list)?;
    Ok(jobs)
}

// A single command is the one job of one worker.
fn decide_command(
    alloc: Global,
    words: &[String],
    env: &[(String, String)],
) -> Result<Work, Refusal>
    requires word { 0 < length words.now }
    ensures { (source : SourceView) → Decides (map (λ v. (string_bytes v.0, string_bytes v.1)) env.now) source source
        (commands.Cc (map string_bytes words.now)) result }
{
    let settings = Settings {
        options: NO_OPTIONS,
        env,
    };
    let config = configure(alloc, &settings)?;
    match one_job(alloc, words) {
        Ok(jobs) => Ok(Work::Command(ListWork {
            config,
            most: 1,
            jobs,
        })),
        Err(_) => Err(Refusal::Memory),
    }
}

// The jobs of the input, as the settings say.
fn decide_list<R: Source>(
    alloc: Global,
    settings: &Settings<'_>,
    input: &mut R,
) -> Result<Work, Refusal>
    requires within { AreWithin (given_in settings.now.options) }
    requires input { (R.shows input.old).ended ≡ false }
    ensures { Decides (map (λ v. (string_bytes v.0, string_bytes v.1)) settings.now.env.now) (R.shows input.old) (R.shows input.new)
        (commands.Build (given_in settings.now.options)) result }
{
    let config = configure(alloc, settings)?;
    let jobs = read_jobs(alloc, input)?;
    Ok(Work::List(ListWork {
        config,
        most: settings.options.worker_count(),
        jobs,
    }))
}

// The same, while lines report on them.
fn decide_watched<R: Source>(
    alloc: Global,
    settings: &Settings<'_>,
    input: &mut R,
) -> Result<Work, Refusal>
    requires within { AreWithin (given_in settings.now.options) }
    requires input { (R.shows input.old).ended ≡ false }
    ensures { Decides (map (λ v. (string_bytes v.0, string_bytes v.1)) settings.now.env.now) (R.shows input.old) (R.shows input.new)
        (commands.Watch (given_in settings.now.options)) result }
{
    let config = configure(alloc, settings)?;
    let jobs = read_jobs(alloc, input)?;
    let list = ListWork {
        config,
        most: settings.options.worker_count(),
        jobs,
    };
    Ok(Work::Watched {
        list,
        lines: settings.options.line_count(),
    })
}

// The graph of the input, as the settings say.
fn decide_graph<R: Source>(
    alloc: Global,
    settings: &Settings<'_>,
    input: &mut R,
) -> Result<Work, Refusal>
    requires within { AreWithin (given_in settings.now.options) }
    requires input { (R.shows input.old).ended ≡ false }
    ensures { Decides (map (λ v. (string_bytes v.0, string_bytes v.1)) settings.now.env.now) (R.shows input.old) (R.shows input.new)
        (commands.Graph (given_in settings.now.options)) result }
{
    let config = configure(alloc, settings)?;
    let graph = read_graph(alloc, input)?;
    Ok(Work::Graph(GraphWork {
        config,
        most: settings.options.worker_count(),
        graph,
    }))
}

// The host list as it is read.
fn decide_hosts(
    alloc: Global,
    hosts: Option<&str>,
    env: &[(String, String)],
) -> Result<Work, Refusal>
    ensures { (source : SourceView) → Decides (map (λ v. (string_bytes v.0, string_bytes v.1)) env.now) source source
        (commands.Hosts (option_copied hosts.entry)) result }
{
    let list = list_hosts(alloc, host_text(hosts, env).as_bytes())?;
    Ok(Work::Say(list))
}

// The class of a command as one line.
fn decide_class(alloc: Global, words: &[String], env: &[(String, String)]) -> Result<Work, Refusal>
    ensures { (source : SourceView) → Decides (map (λ v. (string_bytes v.0, string_bytes v.1)) env.now) source source
        (commands.Scan (map string_bytes words.now)) result }
{
    match class_line(alloc, words) {
        Ok(line) => Ok(Work::Say(Text::Made(line))),
        Err(_) => Err(Refusal::Memory),
    }
}

/// What a command comes to before a job is run; or why it fails.
pub fn decide<R: Source>(call: Invocation<'_>, input: &mut R) -> Result<Work, Refusal>
    requires input { (R.shows input.old).ended ≡ false }
    requires within { IsWithin (meaning call.command) }
    ensures { Decides (map (λ v. (string_bytes v.0, string_bytes v.1)) call.entry.env.now) (R.shows input.old) (R.shows input.new)
        (meaning call.entry.command) result }
{
    let Invocation {
        alloc,
        command,
        env,
    } = call;
    match command {
        Command::Build(options) => decide_list(alloc, &Settings { options, env }, input),
        Command::Watch(options) => decide_watched(alloc, &Settings { options, env }, input),
        Command::Graph(options) => decide_graph(alloc, &Settings { options, env }, input),
        Command::Cc { words } => decide_command(alloc, words, env),
        Command::Hosts { hosts } => decide_hosts(alloc, hosts, env),
        Command::Scan { words } => decide_class(alloc, words, env),
        Command::Rehearse { jobs } => Ok(Work::Rehearse {
            jobs: u32::from(jobs),
        }),
        Command::Help(name) => Ok(Work::Say(Text::Fixed(help_text(name)))),
        Command::Version => Ok(Work::Say(Text::Fixed(version_text()))),
    }
}
