//! How long the back-off of a host is after a failure: the host is not used then.
ghost use Rattle.std.specs.Prelude.{◌≡◌};
ghost use Rattle.slot_table.specs.Backoff.{bad_until};

/// The moment at which the back-off of a host that failed at `now` ends: `period` seconds later, or the greatest moment if that is past it.
pub fn bad_until(now: u64, period: u32) -> u64
    ensures { result ≡ bad_until now period }
{
    now.saturating_add(u64::from(period))
}
