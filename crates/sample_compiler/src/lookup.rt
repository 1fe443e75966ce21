//! The files of a run, and the lookups in them.

ghost use Rattle.std.specs.Prelude.{◌≡◌, ◌++◌, ◌∷◌, [], codes, false, IfOk};
ghost use Rattle.std.specs.Option.{option_copied};
ghost use Rattle.file_map.specs.FileMaps.{Files};
ghost use Rattle.std.specs.FinMap.{get};
ghost use Rattle.sample_compiler.specs.Expanding as expanding;
ghost use Rattle.sample_compiler.specs.Lookups as lookups;
ghost use Rattle.sample_compiler.specs.Lookups.{Agrees, Looked};
ghost use Rattle.sample_compiler.specs.Seeking as seeking;
ghost use Rattle.sample_compiler.specs.Seeking.{Walked, first_unknown};

use crate::stops::ExpandStop;
use farm_types::Bytes;
use sample_lang::FileMap;
use std::alloc::{AllocError, Global};

/// The files of one run, as far as they are known, and the folders in which included ones are looked up.
#[derive(Clone, Copy)]
pub struct Sources<'a> {
    pub alloc: Global,
    pub files: &'a FileMap,
    /// Names that are known to be no files.
    pub absent: &'a [Bytes],
    /// The map has all files: any other name is no file.
    pub whole: bool,
    pub dirs: &'a [Bytes],
}

// Whether one of the names is this one.
fn is_listed(names: &[Bytes], name: &[u8]) -> bool
    ensures { result ≡ lookups.is_listed names.now name.now }
{
    for listed in names {
        if listed.as_slice() == name {
            return true;
        }
    }
    false
}

/// A file, if it is there. A name for which that isn't known stops the run.
pub fn look<'a>(sources: Sources<'a>, path: &Bytes) -> Result<Option<&'a Bytes>, ExpandStop>
    ensures found { (files : Files) → Agrees sources.entry.files.now sources.entry.absent.now sources.entry.whole files
        → Looked (λ found. option_copied found) sources.entry.whole (get files path.now) result }
    ensures looked { (files : Files) → Agrees sources.entry.files.now sources.entry.absent.now sources.entry.whole files
        → sources.entry.whole ≡ false → Walked (first_unknown sources.entry.files.now sources.entry.absent.now (path.now ∷ [])) result }
{
    if let Some(content) = sources.files.find(path) {
        return Ok(Some(content));
    }
    if sources.whole || is_listed(sources.absent, path.as_slice()) {
        return Ok(None);
    }
    let path = path.copy()?;
    Err(ExpandStop::Unknown(path))
}

// `DIR/F`
fn joined(alloc: Global, dir: &Bytes, name: &[u8]) -> Result<Bytes, AllocError>
    ensures { IfOk result (λ path. path ≡ dir.now ++ codes "/" ++ name.now) }
{
    let mut path = dir.copy()?;
    path.try_push(b'/')?;
    path.try_extend(name)?;
    Ok(path)
}

// The first of the folders' files of this name.
fn find_in<'a>(sources: Sources<'a>, name: &[u8]) -> Result<Option<&'a Bytes>, ExpandStop>
    ensures found { (files : Files) → Agrees sources.entry.files.now sources.entry.absent.now sources.entry.whole files
        → Looked (λ found. option_copied found) sources.entry.whole (expanding.find_in files sources.entry.dirs.now name.now) result }
    ensures looked { (files : Files) → Agrees sources.entry.files.now sources.entry.absent.now sources.entry.whole files
        → sources.entry.whole ≡ false → Walked (first_unknown sources.entry.files.now sources.entry.absent.now (seeking.sought_in files sources.entry.dirs.now name.now)) result }
{
    let mut rest = sources.dirs;
    'seeking: while let [dir, more @ ..] = rest {
        let path = joined(sources.alloc, dir, name)?;
        if let Some(content) = look(sources, &path)? {
            return Ok(Some(content));
        }
        rest = more;
    }
    Ok(None)
}

/// An included file.
pub fn find_file<'a>(sources: Sources<'a>, name: &[u8]) -> Result<Option<&'a Bytes>, ExpandStop>
    ensures found { (files : Files) → Agrees sources.entry.files.now sources.entry.absent.now sources.entry.whole files
        → Looked (λ found. option_copied found) sources.entry.whole (expanding.find_file files sources.entry.dirs.now name.now) result }
    ensures looked { (files : Files) → Agrees sources.entry.files.now sources.entry.absent.now sources.entry.whole files
        → sources.entry.whole ≡ false → Walked (first_unknown sources.entry.files.now sources.entry.absent.now (seeking.sought files sources.entry.dirs.now name.now)) result }
{
    let path = Bytes::from_slice(sources.alloc, name)?;
    if let Some(content) = look(sources, &path)? {
        return Ok(Some(content));
    }
    find_in(sources, name)
}
