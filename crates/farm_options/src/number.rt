//! Numbers in words.

ghost use Rattle.std.specs.Prelude.{◌≡◌, ◌≤◌, ℕ, MatchOption};
ghost use Rattle.farm_types.specs.Decimals.{IsDecimal};
ghost use Rattle.farm_options.specs.Numbers.{IsPeriod, jobs_number, lines_number, tries_number, workers_number};

use farm_types::limits::{HOSTS_MAX, JOBS_MAX, LINES_MAX, PERIOD_MAX, WORKERS_MAX};
use farm_types::read_decimal;

/// The most decimal digits of a number of workers, of jobs or of lines.
const COUNT_DIGITS: usize = 3;

/// The most decimal digits of a number of tries.
const TRIES_DIGITS: usize = 2;

/// The most exchanges that a job may make.
const TRIES_MAX: u32 = HOSTS_MAX as u32;

/// The most decimal digits of a back-off period.
const PERIOD_DIGITS: usize = 7;

// The number within these two that a word spells in at most `digits` decimal digits, with nothing beside them.
fn parse_number(word: &str, digits: usize, least: u32, greatest: u32) -> Option<u32>
    requires { digits ≤ 9 }
    ensures { MatchOption result ((n : ℕ) → ¬ (IsDecimal digits least greatest word.now n)) (IsDecimal digits least greatest word.now) }
{
    read_decimal(word.as_bytes(), digits, least, greatest)
}

// The number of workers that a word spells.
pub(crate) fn parse_workers(word: &str) -> Option<u8>
    ensures { result ≡ workers_number word.now }
{
    match parse_number(word, COUNT_DIGITS, 1, WORKERS_MAX as u32) {
        Some(workers) => Some(workers as u8),
        None => None,
    }
}

// The number of tries that a word spells.
pub(crate) fn parse_tries(word: &str) -> Option<u8>
    ensures { result ≡ tries_number word.now }
{
    match parse_number(word, TRIES_DIGITS, 1, TRIES_MAX) {
        Some(tries) => Some(tries as u8),
        None => None,
    }
}

// The number of lines that a word spells.
pub(crate) fn parse_lines(word: &str) -> Option<u8>
    ensures { result ≡ lines_number word.now }
{
    match parse_number(word, COUNT_DIGITS, 1, LINES_MAX) {
        Some(lines) => Some(lines as u8),
        None => None,
    }
}

// The number of jobs that a word spells.
pub(crate) fn parse_jobs(word: &str) -> Option<u16>
    ensures { result ≡ jobs_number word.now }
{
    match parse_number(word, COUNT_DIGITS, 1, JOBS_MAX as u32) {
        Some(jobs) => Some(jobs as u16),
        None => None,
    }
}

// The back-off period that a word spells.
pub(crate) fn parse_period(word: &str) -> Option<u32>
    ensures { MatchOption result ((n : ℕ) → ¬ (IsPeriod word.now n)) (IsPeriod word.now) }
{
    parse_number(word, PERIOD_DIGITS, 0, PERIOD_MAX)
}
