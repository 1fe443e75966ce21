ghost use Rattle.std.specs.Prelude.{◌≡◌, ◌+◌, IfOk, All, vec_len, string_bytes};
ghost use Rattle.edge_real.specs.Kits.{IsSystemKit};

use crate::{ChildStation, DiskFiles, TcpDialer, WallClock};
use edge_sockets::Notices;
use edge_streams::PAUSE_MILLIS;
use edge_traits::Kit;
use object_delivery::FileKeeper;
use std::alloc::{AllocError, Global};
use std::fs::File;
use std::io::Eprint;
use std::net::Net;
use std::process::Processes;
use std::random::RandomSource;
use std::rt;

/// The devices of one worker of `farm`, over the system.
pub type SystemKit<R> = Kit<TcpDialer<R>, ChildStation<R>, FileKeeper<DiskFiles<R>>, WallClock<R>>;

/// What the kits of a process have in common.
#[derive(Clone, Copy)]
pub struct KitSettings<'a> {
    /// The folder of what is of their own.
    pub folder: &'a str,
    /// The number of this process.
    pub process: u32,
    pub notices: Notices,
    /// Whether a file without a byte is put, and no fault.
    pub puts_empty: bool,
}

/// A worker's devices. A pause of the clock lasts that many milliseconds.
pub fn system_kit<
    R: Net + Processes + RandomSource + rt::Files<File = File> + rt::Clock + Eprint + Copy,
>(
    rt: R,
    alloc: Global,
    settings: &KitSettings<'_>,
    pause_millis: u64,
) -> Result<SystemKit<R>, AllocError>
    ensures { IfOk result (IsSystemKit rt settings.now.folder.now settings.now.process) }
{
    let staging = String::from_str(alloc, settings.folder)?;
    Ok(Kit {
        dialer: TcpDialer::new(rt, settings.notices),
        station: ChildStation::new(rt, String::from_str(alloc, settings.folder)?),
        keeper: FileKeeper::new(DiskFiles::new(rt, staging, settings.process, settings.puts_empty)),
        clock: WallClock::pausing(rt, pause_millis),
    })
}

/// That many kits.
pub fn system_kits<
    R: Net + Processes + RandomSource + rt::Files<File = File> + rt::Clock + Eprint + Copy,
>(
    rt: R,
    alloc: Global,
    settings: &KitSettings<'_>,
    count: usize,
) -> Result<Vec<SystemKit<R>>, AllocError>
    ensures count { IfOk result (λ kits. vec_len kits ≡ count) }
    ensures kits { IfOk result (λ kits. All (IsSystemKit rt settings.now.folder.now settings.now.process) kits.items) }
{
    let mut kits = Vec::with_capacity(alloc, count)?;
    for _ in 0..count {
        kits.push(system_kit(rt, alloc, settings, PAUSE_MILLIS)?)?;
    }
    Ok(kits)
}

/// That many kits, and after them one more, which may lend its clock: a pause of it lasts that many milliseconds.
pub fn watch_kits<
    R: Net + Processes + RandomSource + rt::Files<File = File> + rt::Clock + Eprint + Copy,
>(
    rt: R,
    alloc: Global,
    settings: &KitSettings<'_>,
    count: usize,
    pause_millis: u64,
) -> Result<Vec<SystemKit<R>>, AllocError>
    ensures count { IfOk result (λ kits. vec_len kits ≡ count + 1) }
    ensures kits { IfOk result (λ kits. All (IsSystemKit rt settings.now.folder.now settings.now.process) kits.items) }
{
    let mut kits = system_kits(rt, alloc, settings, count)?;
    kits.push(system_kit(rt, alloc, settings, pause_millis)?)?;
    Ok(kits)
}
