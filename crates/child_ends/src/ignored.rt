//! Whether a process ignores SIGCHLD.

use std::str;

/// Whether the process of this text of `/proc/PID/stat` ignores SIGCHLD. A text that doesn't say it is of one that doesn't.
pub fn ignores_ends(text: &[u8]) -> bool {
    match ignored_signals(text) {
        Some(signals) => signals & SIGCHLD != 0,
        None => false,
    }
}

// The bit of SIGCHLD among the signals.
const SIGCHLD: u64 = 1 << 16;

// The place of the ignored signals, counted from the end of the program's name, which may have blanks itself.
const IGNORED: usize = 31;

fn ignored_signals(text: &[u8]) -> Option<u64> {
    let end = text.iter().rposition(|byte| *byte == b')')?;
    let field = text.get(end..)?.split(|byte| *byte == b' ').nth(IGNORED)?;
    str::from_utf8(field).ok()?.parse::<u64>().ok()
}
