//! Slots, as the tests begin with them.
ghost use Rattle.std.specs.Prelude.{◌≡◌, ◌*◌, ◌≤◌, [], length, IfOk};
ghost use Rattle.farm_types.specs.Limits.{hosts_max};
ghost use Rattle.farm_machine.specs.Jobs.{AreLimitsOf};
ghost use Rattle.job_run.specs.Events.{events_max};

use farm_machine::limits_of;
use farm_types::Hosts;
use slot_table::OneThread;
use std::alloc::Global;
use std::test::Fail;

/// The slots of one thread for these entries, with room for two jobs.
pub fn slots_of(alloc: Global, hosts: &Hosts) -> Result<OneThread<16>, Fail>
    requires { length hosts.now.list ≤ hosts_max }
    ensures limits { IfOk result (λ slots. AreLimitsOf slots.limits hosts.now) }
    ensures mine { IfOk result (λ slots. slots.mine ≡ []) }
    ensures spare { IfOk result (λ slots. 2 * events_max ≤ slots.spare) }
{
    let limits = limits_of(hosts, 8);
    if !limits.are_valid() {
        return Err("the limits are valid".into());
    }
    Ok(OneThread::new(alloc, limits, 256)?)
}
