//! What is seen of a kit.
ghost use Rattle.farm_machine.specs.Devices.{Devices, devices};

use edge_traits::{Clock, Dialer, Keeper, Kit, Station};

/// Kits of which something is seen.
pub trait Observed {
    /// What they show of their past, what their peers may give, and what their programs may leave.
    ghost devices: { Devices Self };
}

impl<D: Dialer, S: Station, K: Keeper, C: Clock> Observed for Kit<D, S, K, C> {
    ghost devices = { devices D.shows S.shows K.shows C.shows D.may_give S.ran };
}
