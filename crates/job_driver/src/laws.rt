//! What every run of jobs means.
ghost use Rattle.farm_machine.specs.Devices.{devices};
ghost use Rattle.job_driver.specs.Means.{RunMeansLaw};

use edge_traits::{Clock, Dialer, Keeper, Station};

/// What follows of every run of jobs, as `build` promises it. Each report is a course of the table. Each job was drawn, and no slot is
/// held. Over honest peers each object is one that a compiler may answer. It also says which jobs end well.
pub fn run_means<D: Dialer, S: Station, K: Keeper, C: Clock>(
    _dialer: &D,
    _station: &S,
    _keeper: &K,
    _clock: &C,
)
    ensures { RunMeansLaw (devices D.shows S.shows K.shows C.shows D.may_give S.ran) }
{}
