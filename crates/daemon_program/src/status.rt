//! The exit status that follows from the log.

ghost use Rattle.std.specs.Prelude.{◌≡◌};
ghost use Rattle.std.specs.List.{list_any};
ghost use Rattle.daemon_worker.specs.Logs as logs;
ghost use Rattle.daemon_program.specs.Daemons as daemons;
ghost use Rattle.daemon_program.specs.Daemons.{log_status};

use daemon_worker::{Entry, Met};
use farm_types::exits::{FAULT, NO_MEMORY};

fn is_door_fault(what: &Met) -> bool
    ensures { result ≡ logs.is_door_fault what.now }
{
    matches!(what, Met::DoorFault)
}

fn is_door_memory(what: &Met) -> bool
    ensures { result ≡ daemons.is_door_memory what.now }
{
    matches!(what, Met::DoorMemory)
}

fn has_door_fault(log: &[Entry]) -> bool
    ensures { result ≡ list_any (λ entry. logs.is_door_fault entry.what) log.now }
{
    log.iter().any(|entry| is_door_fault(&entry.what))
}

fn has_door_memory(log: &[Entry]) -> bool
    ensures { result ≡ list_any (λ entry. daemons.is_door_memory entry.what) log.now }
{
    log.iter().any(|entry| is_door_memory(&entry.what))
}

/// The exit status of a log that was printed.
pub(crate) fn status_of(log: &[Entry]) -> u8
    ensures { result ≡ log_status log.now }
{
    if has_door_fault(log) {
        FAULT
    } else if has_door_memory(log) {
        NO_MEMORY
    } else {
        0
    }
}
