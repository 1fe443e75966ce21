//! Rows of texts, with the job graphs that they list or the place at which they are wrong, and which jobs of a depth run.

ghost use Rattle.job_graph.specs.Graphs.{IsGraph};

use crate::same::{same, same_bytes};
use farm_types::Bytes;
use job_graph::{Fate, FateList, Graph, GraphError, Wave, depth, parse, wave};
use std::alloc::{AllocError, Global};
use std::process::Abort;
use std::test::Fail;

/// Adds a number, and a comma after it.
fn add_number(alloc: Global, shown: &mut Bytes, number: u32) -> Result<(), AllocError> {
    let digits = number.to_string(alloc)?;
    shown.try_extend(digits.as_bytes())?;
    shown.try_push(b',')
}

fn add_numbers(alloc: Global, shown: &mut Bytes, numbers: &[u32]) -> Result<(), AllocError> {
    for number in numbers {
        add_number(alloc, shown, *number)?;
    }
    Ok(())
}

/// Adds what a job needs.
fn add_needs(
    alloc: Global,
    shown: &mut Bytes,
    graph: &Graph,
    job: usize,
) -> Result<(), AllocError> {
    match graph.needs.get(job) {
        Some(needs) => add_numbers(alloc, shown, needs.as_slice()),
        None => Ok(()),
    }
}

/// Adds the depth of each job and what it needs.
fn add_graph(alloc: Global, shown: &mut Bytes, graph: &Graph) -> Result<(), AllocError>
    requires { IsGraph graph.now }
{
    for job in 0..graph.jobs.len() {
        add_number(alloc, shown, depth(graph, job as u32))?;
        shown.try_push(b':')?;
        add_needs(alloc, shown, graph, job)?;
        shown.try_push(b' ')?;
    }
    Ok(())
}

/// Adds the name of a kind of faults, and these numbers.
fn add_fault(
    alloc: Global,
    shown: &mut Bytes,
    name: &[u8],
    numbers: &[u32],
) -> Result<(), AllocError> {
    shown.try_extend(name)?;
    add_numbers(alloc, shown, numbers)
}

/// Adds what is wrong.
fn add_error(alloc: Global, shown: &mut Bytes, error: &GraphError) -> Result<(), AllocError> {
    match error {
        GraphError::Jobs { line, fault } => {
            add_fault(alloc, shown, b"jobs ", &[u32::from(fault.number()), *line])
        }
        GraphError::Fault { line, fault } => {
            add_fault(alloc, shown, b"needs ", &[u32::from(fault.number()), *line])
        }
        GraphError::Cycle(cycle) => add_fault(alloc, shown, b"cycle ", cycle.as_slice()),
        GraphError::Memory => add_fault(alloc, shown, b"memory", &[]),
    }
}

/// Adds the depth of each job and what it needs, or what is wrong.
fn add_text(alloc: Global, shown: &mut Bytes, text: &[u8]) -> Result<(), AllocError> {
    match parse(alloc, text) {
        Ok(graph) => add_graph(alloc, shown, &graph),
        Err(error) => add_error(alloc, shown, &error),
    }
}

/// A text, and what is shown of it.
type Row = (&'static [u8], &'static [u8]);

const GRAPHS: &[Row] = &[
    (b"a", b"0,: "),
    (b"a\nneeds: 1\nb", b"0,: 1,:0, "),
    (b"needs: 2\na\nb", b"1,:1, 0,: "),
    (
        b"a\n\tneeds:\t1 \nb\nneeds: 1 2\nneeds: 002\nc\n",
        b"0,: 1,:0, 2,:0,1,1, ",
    ),
    (b"needs:\na\n", b"0,: "),
    (
        b"needs: 2\n# no job\n\nneeds: 3\na\nb\nc",
        b"1,:1,2, 0,: 0,: ",
    ),
    (b"needs: 3\na\nneeds: 1\nb\nc", b"1,:2, 2,:0, 0,: "),
    (
        b"a\nneeds: 1\nb\nneeds: 1\nc\nneeds: 3 2\nd",
        b"0,: 1,:0, 1,:0, 2,:2,1, ",
    ),
    (b"needs:1\na", b"0,: 0,: "),
    (b"'needs:' 1\na", b"0,: 0,: "),
    (b"# needs: 7\na", b"0,: "),
    (b"needs: 3\na\nb", b"needs 1,1,"),
    (b"a\nneeds: 0\nb", b"needs 1,2,"),
    (b"a\nneeds: 0001\nb", b"needs 1,2,"),
    (b"a\nneeds: 1 '1'\nb", b"needs 1,2,"),
    (b"a\nneeds: 1\r\nb", b"needs 1,2,"),
    (b"a\nneeds: 1\n", b"needs 2,2,"),
    (b"a\nneeds:", b"needs 2,2,"),
    (b"a\nneeds: 1 x", b"needs 1,2,"),
    (b"a\nneeds: 1\nneeds: x", b"needs 2,2,"),
    (b"needs: x\na\n'", b"jobs 1,3,"),
    (b"needs: '\xff\x00\\\n\n", b"jobs 3,0,"),
    (b"needs: 1\nscc -c a.c\nneeds: 1\nscc -c a.c", b"jobs 6,4,"),
    (b"needs: 1\na", b"cycle 0,"),
    (b"needs: 2\na\nneeds: 1\nb", b"cycle 0,1,"),
    (b"a\nneeds: 4\nb\nneeds: 2\nc\nneeds: 3\nd", b"cycle 1,3,2,"),
    (
        b"needs: 2\na\nneeds: 3\nb\nneeds: 4\nc\nneeds: 3 1\nd",
        b"cycle 2,3,",
    ),
];

fn expect_graphs<R: Abort>(rt: &R, alloc: Global, rows: &[Row]) -> Result<(), Fail> {
    for (text, wanted) in rows {
        let mut shown = Bytes::new(alloc);
        add_text(alloc, &mut shown, text)?;
        same_bytes(rt, shown.as_slice(), wanted, text);
    }
    Ok(())
}

#[test]
fn graphs(rt: HostRuntime) -> Result<(), Fail> {
    expect_graphs(&rt, rt.alloc(), GRAPHS)
}

fn fate_of(letter: u8) -> Fate {
    match letter {
        b'g' => Fate::Good,
        b'b' => Fate::Bad,
        b's' => Fate::Skipped { by: 0 },
        _ => Fate::Unknown,
    }
}

/// Fates, by a letter for each.
fn fates_of(alloc: Global, letters: &[u8]) -> Result<FateList, AllocError> {
    let mut fates = FateList::new(alloc);
    for letter in letters {
        fates.try_push(fate_of(*letter))?;
    }
    Ok(fates)
}

/// Adds the jobs of a depth that run, those that are skipped, and by which.
fn add_wave(alloc: Global, shown: &mut Bytes, wave: &Wave) -> Result<(), AllocError> {
    add_numbers(alloc, shown, wave.run.as_slice())?;
    shown.try_push(b'|')?;
    add_numbers(alloc, shown, wave.skip.as_slice())?;
    shown.try_push(b'|')?;
    add_numbers(alloc, shown, wave.by.as_slice())
}

const TWO: &[u8] = b"a\nneeds: 1\nb";

const FOUR: &[u8] = b"a\nb\nneeds: 2 1\nc\nneeds: 2\nd";

const THREE: &[u8] = b"a\nneeds: 1\nb\nneeds: 2 1\nc";

const DIAMOND: &[u8] = b"a\nneeds: 1\nb\nneeds: 1\nc\nneeds: 3 2\nd";

/// A text, a depth, the fates of the jobs, and what is shown of the wave.
type WaveRow = (&'static [u8], u32, &'static [u8], &'static [u8]);

const WAVES: &[WaveRow] = &[
    (TWO, 0, b"??", b"0,||"),
    (TWO, 1, b"g?", b"1,||"),
    (TWO, 1, b"b?", b"|1,|0,"),
    (FOUR, 0, b"????", b"0,1,||"),
    (FOUR, 1, b"bb??", b"|2,3,|0,1,"),
    (FOUR, 1, b"gb??", b"|2,3,|1,1,"),
    (FOUR, 1, b"bg??", b"3,|2,|0,"),
    (THREE, 2, b"bs?", b"|2,|0,"),
    (THREE, 2, b"gs?", b"|2,|1,"),
    (THREE, 3, b"ggg", b"||"),
    (DIAMOND, 1, b"b???", b"|1,2,|0,0,"),
    (DIAMOND, 2, b"gbg?", b"|3,|1,"),
    (DIAMOND, 2, b"ggb?", b"|3,|2,"),
    (DIAMOND, 2, b"ggg?", b"3,||"),
];

/// Adds the wave of this depth, if each job has a fate.
fn add_wave_of(
    alloc: Global,
    shown: &mut Bytes,
    graph: &Graph,
    level: u32,
    fates: &FateList,
) -> Result<(), AllocError>
    requires { IsGraph graph.now }
{
    if fates.len() != graph.jobs.len() {
        return Ok(());
    }
    let wave = wave(alloc, graph, level, fates)?;
    add_wave(alloc, shown, &wave)
}

fn add_wave_row(alloc: Global, shown: &mut Bytes, row: &WaveRow) -> Result<(), GraphError> {
    let (text, level, letters, _) = row;
    let fates = fates_of(alloc, letters)?;
    let graph = parse(alloc, text)?;
    add_wave_of(alloc, shown, &graph, *level, &fates)?;
    Ok(())
}

fn expect_waves<R: Abort>(rt: &R, alloc: Global, rows: &[WaveRow]) -> Result<(), Fail> {
    for row in rows {
        let mut shown = Bytes::new(alloc);
        add_wave_row(alloc, &mut shown, row)?;
        same_bytes(rt, shown.as_slice(), row.3, &(row.0, row.1, row.2));
    }
    Ok(())
}

#[test]
fn waves(rt: HostRuntime) -> Result<(), Fail> {
    expect_waves(&rt, rt.alloc(), WAVES)
}

/// Adds a word that names a job by its number.
fn add_need(alloc: Global, text: &mut Bytes, number: u32) -> Result<(), AllocError> {
    let digits = number.to_string(alloc)?;
    text.try_push(b' ')?;
    text.try_extend(digits.as_bytes())
}

/// Adds a line of needs that names `count` jobs, from the first on.
fn add_first_needs(alloc: Global, text: &mut Bytes, count: u32) -> Result<(), AllocError> {
    text.try_extend(b"needs:")?;
    for need in 0..count {
        add_need(alloc, text, need + 1)?;
    }
    text.try_push(b'\n')
}

/// `jobs` jobs, each of which needs all that are before it.
fn all_needed(alloc: Global, jobs: u32) -> Result<Bytes, AllocError> {
    let mut text = Bytes::new(alloc);
    for job in 0..jobs {
        add_first_needs(alloc, &mut text, job)?;
        text.try_extend(b"a\n")?;
    }
    Ok(text)
}

/// The depth of the last job.
fn last_depth(alloc: Global, text: &[u8]) -> Result<Option<u32>, GraphError> {
    let graph = parse(alloc, text)?;
    Ok(graph.depths.as_slice().last().copied())
}

#[test]
fn most_needs(rt: HostRuntime) -> Result<(), Fail> {
    let text = all_needed(rt.alloc(), 512)?;
    let last = last_depth(rt.alloc(), text.as_slice())?;
    same(&rt, &last, &Some(511), &"512 jobs");
    Ok(())
}
