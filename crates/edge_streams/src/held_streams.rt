// The places of the standard streams, if this process was begun without them.
ghost use Rattle.std.specs.Prelude.{IfOk, IfSome};
ghost use Rattle.edge_streams.specs.Streams.{StandsInPlace};

use std::fs::File;
use std::os::fd::{AsRawFd, RawFd};
use std::{io, rt};

/// The number of the standard error, the last of the three.
const LAST: RawFd = 2;

/// Files in the places of the standard streams that this process was begun without. They can be neither read nor written.
/// What is opened gets the lowest number that is free. So without these a file or a socket would be the standard output or error, and what is printed
/// would go into an object, or to a peer. A program that is started has streams of its own.
#[derive(Drop)]
pub struct HeldStreams {
    first: Option<File>,
    second: Option<File>,
    third: Option<File>,
}

impl HeldStreams {
    /// Takes the places that are free, for as long as this lives. Nothing may have been opened before.
    ///
    /// # Errors
    /// Neither the root folder nor `/dev/null` can be opened: a place may have stayed free.
    pub fn take<R: rt::Files<File = File>>(rt: &R) -> io::Result<HeldStreams>
        ensures first { IfOk result (λ held. IfSome held.first StandsInPlace) }
        ensures second { IfOk result (λ held. IfSome held.second StandsInPlace) }
        ensures third { IfOk result (λ held. IfSome held.third StandsInPlace) }
    {
        Ok(HeldStreams {
            first: first_free(rt)?,
            second: first_free(rt)?,
            third: first_free(rt)?,
        })
    }
}

/// A file in the first place that is free, if that is a standard stream's.
fn first_free<R: rt::Files<File = File>>(rt: &R) -> io::Result<Option<File>>
    ensures { IfOk result (λ place. IfSome place StandsInPlace) }
{
    // a folder can be opened, and neither read nor written
    let file = match File::open(rt, "/") {
        Ok(file) => file,
        Err(_) => File::open(rt, "/dev/null")?,
    };
    if file.as_raw_fd() <= LAST {
        return Ok(Some(file));
    }
    Ok(None)
}
