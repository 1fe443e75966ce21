//! Reading of job lists of 4 and 16 MiB.

mod sample;

use crate::times::{Measured, report};
use farm_types::Bytes;
use job_list::parse;
use sample::{SHAPES, comments, jobs};
use std::alloc::Global;
use std::rt::Runtime;

// The sizes of the lists, in MiB; the second is the most that a list may have.
const SIZES: [usize; 2] = [4, 16];

/// The reading of a list.
#[derive(Clone, Copy)]
struct ListTask<'a> {
    text: &'a [u8],
}

impl<'a> Measured for ListTask<'a> {
    fn copy(&self, alloc: Global) -> bool {
        Bytes::from_slice(alloc, self.text).is_ok()
    }

    fn run(&self, alloc: Global) -> bool {
        parse(alloc, self.text).is_ok()
    }
}

fn report_list<R: Runtime>(
    rt: &R,
    alloc: Global,
    name: &str,
    mebibytes: usize,
    text: &[u8],
) -> anyhow::Result<()> {
    let name = format!(in alloc; "{name}, {mebibytes} MiB")?;
    report(rt, alloc, &name, &ListTask { text })
}

/// Prints a line for each list.
pub fn measure_jobs<R: Runtime>(rt: &R, alloc: Global) -> anyhow::Result<()> {
    for shape in &SHAPES {
        for mebibytes in SIZES {
            let text = jobs(alloc, shape, mebibytes)?;
            report_list(rt, alloc, shape.name, mebibytes, &text)?;
        }
    }
    for mebibytes in SIZES {
        let text = comments(alloc, mebibytes)?;
        report_list(rt, alloc, "lines that are no job", mebibytes, &text)?;
    }
    Ok(())
}
