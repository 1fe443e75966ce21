//! The descriptors that whoever started this process handed on to it.

ghost use Rattle.std.specs.Prelude.{◌≡◌};
ghost use Rattle.whole_command.specs.Handed.{mode_of, opens_again};

use crate::words::{Descriptor, Mode};
use std::alloc::AllocError;
use std::fs::{self, FileType};
use std::os::unix::fs::FileTypeExt;
use std::rt::Files;

/// How many descriptors are looked at.
const MOST: usize = 1024;

/// What a descriptor leads to.
#[derive(Clone, Copy, Debug, PartialEq, Eq)]
pub enum Kind {
    /// A regular file.
    File,
    /// A character device, as a terminal.
    Device,
    /// A pipe, with a name or without.
    Pipe,
    /// A socket, a folder or the like.
    Other,
}

/// The descriptors that this process was handed, beside the standard streams, and that can be handed on. It doesn't close them for a program
/// which it becomes, and they lead to a regular file, a character device or a pipe without a name. All that it opens itself it closes. The
/// list is empty if the system doesn't list them.
///
/// Each is opened anew: who reads a regular file begins at its start, and who writes to one adds to its end. A socket can't be opened again, and
/// to open a pipe with a name may wait for ever.
pub fn handed_descriptors<R: Files + AllocGlobal + Clone + Drop>(
    rt: &R,
) -> Result<Vec<Descriptor>, AllocError> {
    let mut handed = Vec::new(rt.alloc());
    let Ok(entries) = fs::read_dir(rt, "/proc/self/fd") else {
        return Ok(handed);
    };
    for entry in entries.take(MOST) {
        let Ok(entry) = entry else {
            continue;
        };
        if let Some(descriptor) = descriptor_named(rt, entry.file_name())? {
            handed.push(descriptor)?;
        }
    }
    Ok(handed)
}

// The descriptor with this number, if it was handed on.
fn descriptor_named<R: Files + AllocGlobal>(
    rt: &R,
    name: &str,
) -> Result<Option<Descriptor>, AllocError> {
    let Ok(number) = name.parse::<u32>() else {
        return Ok(None);
    };
    if number < 3 {
        return Ok(None);
    }
    let path = format!(in rt.alloc(); "/proc/self/fdinfo/{number}")?;
    let Ok(text) = fs::read_to_string(rt, path.as_str()) else {
        return Ok(None);
    };
    match mode_told(text.as_str()) {
        Some(mode) if can_be_opened(rt, number)? => Ok(Some(Descriptor { number, mode })),
        _ => Ok(None),
    }
}

// Whether what a descriptor leads to can be opened again, with the same meaning.
fn can_be_opened<R: Files + AllocGlobal>(rt: &R, number: u32) -> Result<bool, AllocError> {
    let path = format!(in rt.alloc(); "/proc/self/fd/{number}")?;
    let Ok(found) = fs::metadata(rt, path.as_str()) else {
        return Ok(false);
    };
    let kind = kind_of(found.file_type());
    Ok(match fs::read_link(rt, path.as_str()) {
        Ok(link) => opens_again(kind, link.to_string_lossy().as_bytes()),
        // Its path isn't UTF-8: it has a name.
        Err(_) => opens_again(kind, &[]),
    })
}

// Whether it can, by what it leads to and the text of its link.
fn opens_again(kind: Kind, link: &[u8]) -> bool
    ensures { result ≡ opens_again kind link.now }
{
    match kind {
        Kind::File | Kind::Device => true,
        Kind::Pipe => link.starts_with(b"pipe:["),
        Kind::Other => false,
    }
}

fn kind_of(found: FileType) -> Kind {
    if found.is_file() {
        Kind::File
    } else if found.is_char_device() {
        Kind::Device
    } else if found.is_fifo() {
        Kind::Pipe
    } else {
        Kind::Other
    }
}

// The mode of a descriptor by what the system says of it; None if it is closed for other programs.
fn mode_told(text: &str) -> Option<Mode> {
    let flags = text.lines().find_map(|line| line.strip_prefix("flags:"))?;
    let flags = u32::from_str_radix(flags.trim(), 8).ok()?;
    if flags & CLOSED_ON_EXEC != 0 {
        return None;
    }
    Some(mode_of(flags % 4))
}

/// The flag of a descriptor that is closed if another program is started in place of this one.
const CLOSED_ON_EXEC: u32 = 0o2_000_000;

// The mode by the last two bits of the flags.
fn mode_of(access: u32) -> Mode
    ensures { result ≡ mode_of access }
{
    match access {
        0 => Mode::Read,
        1 => Mode::Write,
        _ => Mode::Both,
    }
}
