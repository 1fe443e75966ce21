//! What `--link` and `--run` do over a keeper's files.

ghost use Rattle.std.specs.Prelude.{ℕ, ◌≡◌, [], ◌∷◌, map, string_bytes, true, false, IfOk, IfErr};
ghost use Rattle.edge_traits.specs.Keepers.{IsIdle};
ghost use Rattle.arg_scan.specs.Names.{is_reserved};
ghost use Rattle.sample_program.specs.Links as links;
ghost use Rattle.sample_program.specs.Links.{DidLink, DidRunImage, Stopped};

use crate::fetching::{FILES_MAX, FetchStop, fetch_file, fetch_files};
use crate::messages::{fault_text, name_text, refuse, value_ran};
use crate::running::{RunStop, put_file};
use edge_traits::Keeper;
use farm_types::{Bytes, Ran};
use sample_compiler::printed;
use sample_linker::{Linked, link, run};
use std::alloc::Global;

// What is printed if files weren't fetched.
fn missed_ran(alloc: Global, stop: FetchStop) -> Result<Ran, RunStop>
    ensures ran { IfOk result (links.MissedRan stop) }
    ensures stop { IfErr result (links.MissedStop stop) }
{
    match stop {
        FetchStop::Missing(name) => {
            let text = name_text(alloc, b"no file ", name.as_slice())?;
            Ok(refuse(alloc, text))
        }
        FetchStop::TooLarge => {
            let text = Bytes::from_slice(alloc, b"too large\n")?;
            Ok(refuse(alloc, text))
        }
        FetchStop::File => Err(RunStop::File),
        FetchStop::Memory => Err(RunStop::Memory),
    }
}

// Puts the image that came of these files, or makes the message of their fault.
fn put_linked<K: Keeper>(
    alloc: Global,
    files: &[String],
    image: &Bytes,
    linked: Linked,
    keeper: &mut K,
) -> Result<Ran, RunStop>
    requires idle { IsIdle (K.shows keeper.old) }
    requires name { is_reserved image.now ≡ false }
    ensures ran { IfOk result (links.DidPut (map string_bytes files.now) image.now linked (K.shows keeper.old) (K.shows keeper.new)) }
    ensures stop { IfErr result (links.StoppedPut (K.shows keeper.old) (K.shows keeper.new)) }
{
    match linked {
        Linked::Image(bytes) => {
            put_file(alloc, image, &bytes, keeper)?;
            Ok(printed(alloc, Bytes::new(alloc)))
        }
        Linked::Fault(fault) => {
            let text = fault_text(alloc, files, &fault)?;
            Ok(refuse(alloc, text))
        }
        Linked::Memory => Err(RunStop::Memory),
    }
}

/// Fetches files, links them, and puts the image.
pub fn link_files<K: Keeper>(
    alloc: Global,
    files: &[String],
    image: &String,
    keeper: &mut K,
) -> Result<Ran, RunStop>
    requires idle { IsIdle (K.shows keeper.old) }
    requires name { is_reserved (string_bytes image.now) ≡ false }
    ensures ran { IfOk result (DidLink (map string_bytes files.now) (string_bytes image.now) (K.shows keeper.old) (K.shows keeper.new)) }
    ensures stop { IfErr result (Stopped (map string_bytes files.now) (K.shows keeper.old) (K.shows keeper.new)) }
{
    let name = Bytes::from_slice(alloc, image.as_bytes())?;
    match fetch_files(alloc, files, keeper) {
        Ok(objects) => put_linked(alloc, files, &name, link(alloc, &objects), keeper),
        Err(stop) => missed_ran(alloc, stop),
    }
}

/// Fetches an image and runs it.
pub fn run_image<K: Keeper>(alloc: Global, image: &String, keeper: &mut K) -> Result<Ran, RunStop>
    requires idle { IsIdle (K.shows keeper.old) }
    ensures ran { IfOk result (DidRunImage (string_bytes image.now) (K.shows keeper.old) (K.shows keeper.new)) }
    ensures stop { IfErr result (Stopped (string_bytes image.now ∷ []) (K.shows keeper.old) (K.shows keeper.new)) }
{
    let name = Bytes::from_slice(alloc, image.as_bytes())?;
    match fetch_file(alloc, &name, FILES_MAX, keeper) {
        Ok(content) => Ok(value_ran(alloc, run(alloc, &content))?),
        Err(stop) => missed_ran(alloc, stop),
    }
}
