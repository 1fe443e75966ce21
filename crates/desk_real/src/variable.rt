//! The variable that names the desk of a shared run.

use std::alloc::{AllocError, Global};

/// The place of the desk of a shared run, and how it knows its callers.
#[derive(Clone, Copy, Debug)]
pub struct SharedRun<'a> {
    /// The port at 127.0.0.1.
    pub port: u16,
    pub token: &'a str,
    /// Whether this process runs below a caller that has a slot, and which waits for it.
    pub is_within: bool,
}

/// The name of the variable.
pub const VARIABLE: &str = "FARM_SHARE";

/// How long a token is, in hexadecimal digits.
const TOKEN_LENGTH: usize = 32;

/// What the variable says: `127.0.0.1:PORT:TOKEN`, with `:within` at its end below a caller that has a slot. None for any other text.
pub fn parse_variable(text: &str) -> Option<SharedRun<'_>> {
    let rest = text.strip_prefix("127.0.0.1:")?;
    let (port, rest) = rest.split_once(':')?;
    let (token, is_within) = match rest.strip_suffix(":within") {
        Some(token) => (token, true),
        None => (rest, false),
    };
    let is_token = token.len() == TOKEN_LENGTH
        && token.bytes().all(|byte| byte.is_ascii_hexdigit());
    if !is_token {
        return None;
    }
    Some(SharedRun {
        port: port.parse::<u16>().ok()?,
        token,
        is_within,
    })
}

/// The variable's text below a caller that has a slot.
pub fn within_text(alloc: Global, run: &SharedRun<'_>) -> Result<String, AllocError> {
    let (port, token) = (run.port, run.token);
    format!(in alloc; "127.0.0.1:{port}:{token}:within")
}

/// The variable's text for the command of a shared run.
pub fn variable_text(alloc: Global, port: u16, token: &str) -> Result<String, AllocError> {
    format!(in alloc; "127.0.0.1:{port}:{token}")
}
