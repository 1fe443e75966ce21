//! What is read from the environment.

ghost use Rattle.std.specs.Prelude.{◌≡◌, bytes_eq, map, string_bytes, MatchOption};
ghost use Rattle.std.specs.Option.{option_copied};
ghost use Rattle.farm_options.specs.Environment.{HasBadPeriod, PeriodOf, host_text_of, is_fallback_on, is_zero, value_of};

use crate::number::parse_period;
use crate::options::Options;
use farm_types::limits::PERIOD_DEFAULT;

fn has_name(variable: &(String, String), name: &str) -> bool
    ensures { result ≡ bytes_eq (string_bytes variable.now.0) name.now }
{
    variable.0.as_str() == name
}

/// The value of the first variable of this name in the environment, which is a list of names and values. None if there is
/// none. Takes no memory.
pub fn lookup<'a>(env: &'a [(String, String)], name: &str) -> Option<&'a str>
    ensures { option_copied result ≡ value_of (map (λ v. (string_bytes v.0, string_bytes v.1)) env.now) name.now }
{
    'each: for variable in env {
        if has_name(variable, name) {
            return Some(variable.1.as_str());
        }
    }
    None
}

/// The text of the host list: that of the option `--hosts`, or else of `DISTCC_HOSTS`, or else the empty text.
pub fn host_text<'a>(option: Option<&'a str>, env: &'a [(String, String)]) -> &'a str
    ensures { result.now ≡ host_text_of (option_copied option.entry)
        (map (λ v. (string_bytes v.0, string_bytes v.1)) env.now) }
{
    match option {
        Some(text) => text,
        None => match lookup(env, "DISTCC_HOSTS") {
            Some(text) => text,
            None => "",
        },
    }
}

/// Whether a job that no host compiled is compiled here: not with `--no-fallback`, nor if `DISTCC_FALLBACK` is exactly
/// `0`.
pub fn is_fallback_on(options: &Options<'_>, env: &[(String, String)]) -> bool
    ensures { result ≡ is_fallback_on options.now.fallback
        (map (λ v. (string_bytes v.0, string_bytes v.1)) env.now) }
{
    options.fallback && !is_off(lookup(env, "DISTCC_FALLBACK"))
}

fn is_off(value: Option<&str>) -> bool
    ensures { result ≡ is_zero (option_copied value.entry) }
{
    match value {
        Some(value) => value == "0",
        None => false,
    }
}

/// For how many seconds a host that broke an exchange isn't used: the number of `DISTCC_BACKOFF_PERIOD`, 0 to 1,000,000 in 1
/// to 7 decimal digits, or 60 if there is no such variable. None if its value is anything else. Takes no memory.
pub fn back_off_period(env: &[(String, String)]) -> Option<u32>
    ensures { MatchOption result
        (HasBadPeriod (map (λ v. (string_bytes v.0, string_bytes v.1)) env.now))
        (PeriodOf (map (λ v. (string_bytes v.0, string_bytes v.1)) env.now)) }
{
    match lookup(env, "DISTCC_BACKOFF_PERIOD") {
        Some(value) => parse_period(value),
        None => Some(PERIOD_DEFAULT),
    }
}
