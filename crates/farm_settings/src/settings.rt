//! The variables of the environment, and what they say.

use edge_real::{Notices, variable};
use host_list::{spread, turned};
use std::alloc::{AllocError, Global};
use std::env::Env;

/// The variable with the host list.
pub const HOSTS: &str = "DISTCC_HOSTS";

/// The variable that turns off what this machine does in place of a host, by the value `0`.
pub const FALLBACK: &str = "DISTCC_FALLBACK";

/// The variables that `farm` reads.
const VARIABLES: [&str; 3] = [HOSTS, FALLBACK, "DISTCC_BACKOFF_PERIOD"];

/// The variables that are set. A single command gives the number of its process: by that its host list begins at another entry, if it has `--randomize`.
pub fn variables_of<R: Env + AllocGlobal>(
    rt: &R,
    single: Option<u32>,
) -> Result<Vec<(String, String)>, AllocError> {
    let alloc = rt.alloc();
    let mut variables = Vec::new(alloc);
    for name in VARIABLES {
        if let Some(value) = variable(rt, name)? {
            let value = if name == HOSTS {
                turned_for(alloc, value, single)?
            } else {
                value
            };
            variables.push((String::from_str(alloc, name)?, value))?;
        }
    }
    Ok(variables)
}

// The text of a host list, for the single command of this process if there is one.
fn turned_for(alloc: Global, text: String, single: Option<u32>) -> Result<String, AllocError> {
    let Some(process) = single else {
        return Ok(text);
    };
    let bytes = turned(alloc, text.as_bytes(), spread(process))?;
    Ok(String::from_utf8(bytes.into_vec()).unwrap_or(text))
}

/// What is printed about exchanges with hosts.
pub fn notices_of<R: Env + AllocGlobal>(rt: &R) -> Result<Notices, AllocError> {
    let value = variable(rt, "FARM_NOTICES")?;
    Ok(Notices::by(value.as_ref().map(|value| value.as_str())))
}
