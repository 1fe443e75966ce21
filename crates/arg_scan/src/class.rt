//! The classes of commands.

use crate::verdict::Action;
use crate::why::Why;
use farm_types::{Bytes, Ext};

/// The class of a command.
#[derive(Debug, Drop)]
pub enum Scan {
    /// There is no word.
    Empty,
    /// The command stays on this machine, for this reason. `at` is the place of the word that gives
    /// it, from 0, or the number of words for a reason of the whole command.
    Local {
        why: Why,
        at: u64,
    },
    /// The command may be sent.
    Remote {
        action: Action,
        /// The place of the source.
        input: u64,
        /// The name of the output.
        output: Bytes,
        /// The source is preprocessed already.
        preprocessed: bool,
        /// The ending of the preprocessed source.
        ext: Ext,
    },
    /// There was no memory for the output's name.
    Memory,
}
