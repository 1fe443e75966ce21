//! What may come of a run in which memory ran out.

use edge_traits::FetchFault;
use farm_types::Bytes;
use object_delivery::{Files, MemFiles};
use std::alloc::{AllocError, Global};

/// How a run ended.
pub enum Verdict {
    /// As it ends with ample memory.
    Usual,
    /// In one of the ways in which it may end if memory runs out.
    Wanting,
    /// Otherwise.
    Wrong(&'static str),
}

/// The object of each job.
pub const OBJECT: &[u8] = b"SCO1\ndef a 1\n";

/// How many jobs there are.
pub const JOBS: u32 = 12;

/// What is printed of the jobs: how many lines there are, and how many of them say that a job succeeded.
#[derive(Clone, Copy)]
pub struct Printed {
    pub lines: u32,
    pub ok: u32,
    pub total: bool,
}

// The number at the front of a line, if this is after it.
fn numbered(line: &str, rest: &str) -> Option<u32> {
    line.strip_suffix(rest)?.parse().ok()
}

// Whether a line says that this job of a graph was skipped for one before it.
fn is_skip(line: &str, job: u32) -> bool {
    let Some((number, by)) = line.split_once(" skipped by ") else {
        return false;
    };
    let (Ok(number), Ok(by)) = (number.parse::<u32>(), by.parse::<u32>()) else {
        return false;
    };
    number == job && by < job
}

// One line more: of the next job, which succeeded, was out of memory or was skipped, or the total of all of them.
fn with_line(printed: Printed, line: &str) -> Option<Printed> {
    if printed.total {
        return None;
    }
    let next = printed.lines.saturating_add(1);
    if numbered(line, " remote H:3632 stat 00000000") == Some(next) {
        return Some(Printed {
            lines: next,
            ok: printed.ok.saturating_add(1),
            total: false,
        });
    }
    if numbered(line, " failed memory") == Some(next) || is_skip(line, next) {
        return Some(Printed {
            lines: next,
            ..printed
        });
    }
    let ok: u32 = line.strip_prefix("total 12 ok ")?.parse().ok()?;
    if ok == printed.ok && printed.lines == JOBS {
        return Some(Printed {
            total: true,
            ..printed
        });
    }
    None
}

/// The whole lines that were printed, if each of them is one that a run may print.
pub fn lines_of(text: &str) -> Option<Printed> {
    let mut seen = Printed {
        lines: 0,
        ok: 0,
        total: false,
    };
    for line in text.split_inclusive('\n') {
        let Some(line) = line.strip_suffix('\n') else {
            return Some(seen);
        };
        seen = with_line(seen, line)?;
    }
    Some(seen)
}

/// What is under the name of a file.
#[derive(Clone, Copy, PartialEq, Eq)]
enum Found {
    Nothing,
    Object,
    Other,
}

fn look_up(alloc: Global, files: &mut MemFiles, name: &[u8]) -> Result<Found, AllocError> {
    let path = Bytes::from_slice(alloc, name)?;
    match files.load(alloc, &path, 1_000) {
        Ok(bytes) if bytes.as_slice() == OBJECT => Ok(Found::Object),
        Err(FetchFault::Absent) => Ok(Found::Nothing),
        Err(FetchFault::Memory) => Err(AllocError),
        Ok(_) | Err(FetchFault::Failed | FetchFault::TooMuch { .. }) => Ok(Found::Other),
    }
}

/// How many of the jobs' objects are in the files, if each of them is whole and nothing is left of a put.
pub fn objects(alloc: Global, files: &mut MemFiles) -> Result<Option<u32>, AllocError> {
    let mut whole: u32 = 0;
    for number in 1..=JOBS {
        let name = format!(in alloc; "f{number}.o")?;
        let staged = format!(in alloc; "f{number}.o.farm~")?;
        match look_up(alloc, files, name.as_bytes())? {
            Found::Object => whole = whole.saturating_add(1),
            Found::Nothing => {}
            Found::Other => return Ok(None),
        }
        if look_up(alloc, files, staged.as_bytes())? != Found::Nothing {
            return Ok(None);
        }
    }
    Ok(Some(whole))
}
