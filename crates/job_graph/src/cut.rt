//! The text of a job graph without its lines of needs.

ghost use Rattle.std.specs.Prelude.{◌≡◌, ◌++◌, OnOk, IfOk};
ghost use Rattle.job_graph.specs.Lines as lines;

use crate::line::needs_behind;
use farm_types::Bytes;
use job_list::line_end;
use std::alloc::{AllocError, Global};

// Adds a space for each byte.
fn add_spaces(cut: &mut Bytes, line: &[u8]) -> Result<(), AllocError>
    ensures { OnOk result (cut.new ≡ cut.old ++ lines.spaces line.now) }
{
    for _byte in line {
        cut.try_push(b' ')?;
    }
    Ok(())
}

// Adds a line, or spaces in place of one of needs.
fn add_line(cut: &mut Bytes, line: &[u8]) -> Result<(), AllocError>
    ensures { OnOk result (cut.new ≡ cut.old ++ lines.cut_line line.now) }
{
    match needs_behind(line) {
        Some(_) => add_spaces(cut, line),
        None => cut.try_extend(line),
    }
}

/// The text with spaces in place of its lines of needs.
pub fn cut_text(alloc: Global, text: &[u8]) -> Result<Bytes, AllocError>
    ensures { IfOk result (λ cut. cut ≡ lines.cut_text text.now) }
{
    let mut cut = Bytes::new(alloc);
    let mut at = line_end(text, 0);
    add_line(&mut cut, &text[..at])?;
    while at < text.len() {
        cut.try_push(b'\n')?;
        let end = line_end(text, at + 1);
        add_line(&mut cut, &text[at + 1..end])?;
        at = end;
    }
    Ok(cut)
}
