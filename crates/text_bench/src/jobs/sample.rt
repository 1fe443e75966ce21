//! Job lists of some size.

ghost use Rattle.std.specs.Prelude.{◌≤◌};

use farm_types::limits::JOBS_MAX;
use std::alloc::{AllocError, Global};

/// The bytes of a MiB.
const MEBIBYTE: usize = 1_048_576;

/// The form of the lines of a list: what is at a line's front, what is repeated as often as there is room,
/// and what is before the job's number at its end.
pub struct Shape {
    pub name: &'static str,
    front: &'static str,
    piece: &'static str,
    end: &'static str,
}

/// Lists of 512 jobs, each with an output of its own.
pub const SHAPES: [Shape; 5] = [
    Shape {
        name: "bare words",
        front: "scc -c a.c",
        piece: " -DNAME=VALUE",
        end: " -o ",
    },
    Shape {
        name: "words between double quotes, with escapes",
        front: "scc -c a.c",
        piece: " \"-Da=\\\"b\\\\c\\\"\"",
        end: " -o ",
    },
    Shape {
        name: "a backslash before each byte",
        front: "scc -c a.c ",
        piece: "\\-\\D",
        end: " -o ",
    },
    Shape {
        name: "blanks",
        front: "scc -c a.c",
        piece: " ",
        end: " -o ",
    },
    Shape {
        name: "outputs that differ at their ends",
        front: "scc -c a.c -o ",
        piece: "x",
        end: "",
    },
];

// A line of at most that many bytes.
fn put_job(
    text: &mut Vec<u8>,
    alloc: Global,
    shape: &Shape,
    number: usize,
    most: usize,
) -> Result<(), AllocError> {
    let end = format!(in alloc; "{}{number}\n", shape.end)?;
    let room = most
        .saturating_sub(shape.front.len())
        .saturating_sub(end.len());
    text.extend_from_slice(shape.front.as_bytes())?;
    for _ in 0..room.checked_div(shape.piece.len()).unwrap_or(0) {
        text.extend_from_slice(shape.piece.as_bytes())?;
    }
    text.extend_from_slice(end.as_bytes())
}

/// A list of 512 jobs of this form, of at most that many MiB.
pub fn jobs(alloc: Global, shape: &Shape, mebibytes: usize) -> Result<Vec<u8>, AllocError>
    requires { mebibytes ≤ 16 }
{
    let mut text = Vec::new(alloc);
    for number in 0..JOBS_MAX {
        put_job(
            &mut text,
            alloc,
            shape,
            number,
            mebibytes * MEBIBYTE / JOBS_MAX,
        )?;
    }
    Ok(text)
}

/// One job after short comments and empty lines, of at most that many MiB.
pub fn comments(alloc: Global, mebibytes: usize) -> Result<Vec<u8>, AllocError>
    requires { mebibytes ≤ 16 }
{
    let mut text = Vec::new(alloc);
    let lines = b"# no job\n\n";
    for _ in 0..(mebibytes * MEBIBYTE).saturating_sub(1) / lines.len() {
        text.extend_from_slice(lines)?;
    }
    text.push(b'x')?;
    Ok(text)
}
