//! The preprocessed text of a file.

ghost use Rattle.std.specs.Prelude.{◌≡◌, ◌++◌, ◌+◌, ◌<◌, ◌≤◌, ◌^◌, length, drop, codes, false, IfOk};
ghost use Rattle.sample_compiler.specs.Expanding as expanding;
ghost use Rattle.sample_compiler.specs.Expanding.{expand_lines, expand_line, include, directive, other_directive};
ghost use Rattle.sample_compiler.specs.Lines.{source_lines};
ghost use Rattle.sample_compiler.specs.Directives as directives;
ghost use Rattle.file_map.specs.FileMaps.{Files};
ghost use Rattle.sample_compiler.specs.Lookups.{Agrees};
ghost use Rattle.sample_compiler.specs.Came.{Came};
ghost use Rattle.sample_compiler.specs.Seeking as seeking;
ghost use Rattle.sample_compiler.specs.Seeking.{Walked, first_unknown};

use crate::defines::Define;
use crate::directive::{define_of, include_of};
use crate::lookup::{Sources, find_file};
use crate::replace::{line_len, put_replaced};
use crate::stops::{ExpandFault, ExpandStop};
use farm_types::{Bytes, Items};

/// The defined names so far, and the text that was made.
#[derive(Debug, Drop)]
pub struct Expansion {
    pub defines: Items<Define>,
    pub text: Bytes,
}

// What is after a line and its line feed.
fn behind_line(text: &[u8], len: usize) -> &[u8]
    requires { len ≤ length text.now }
    ensures { result.now ≡ drop (len + 1) text.now }
{
    if len < text.len() {
        &text[len + 1..]
    } else {
        &text[len..]
    }
}

// `#include "F"`, if that many files may still be opened within this one.
#[cycle(nested)]
fn include(
    sources: Sources<'_>,
    room: u32,
    line: u64,
    name: &[u8],
    made: &mut Expansion,
) -> Result<(), ExpandStop>
    ensures came { (files : Files) → Agrees sources.entry.files.now sources.entry.absent.now sources.entry.whole files
        → Came sources.entry.whole (expanding.include files sources.entry.dirs.now room line made.old.defines name.now) made.old.text made.new result }
    ensures looked { (files : Files) → Agrees sources.entry.files.now sources.entry.absent.now sources.entry.whole files
        → sources.entry.whole ≡ false → Walked (first_unknown sources.entry.files.now sources.entry.absent.now (seeking.by_include files sources.entry.dirs.now room made.old.defines name.now)) result }
{
    if room == 0 {
        return Err(ExpandStop::Fault {
            line,
            fault: ExpandFault::TooDeep,
        });
    }
    match find_file(sources, name)? {
        Some(content) => expand(sources, room - 1, content.as_slice(), made),
        None => {
            let name = Bytes::from_slice(sources.alloc, name)?;
            Err(ExpandStop::Fault {
                line,
                fault: ExpandFault::NoFile(name),
            })
        }
    }
}

// A directive.
#[cycle(nested)]
fn take_directive(
    sources: Sources<'_>,
    room: u32,
    line: u64,
    bytes: &[u8],
    made: &mut Expansion,
) -> Result<(), ExpandStop>
    ensures came { (files : Files) → Agrees sources.entry.files.now sources.entry.absent.now sources.entry.whole files
        → Came sources.entry.whole (directive (expanding.include files sources.entry.dirs.now room) line made.old.defines bytes.now (directives.include_of bytes.now)) made.old.text made.new result }
    ensures looked { (files : Files) → Agrees sources.entry.files.now sources.entry.absent.now sources.entry.whole files
        → sources.entry.whole ≡ false → Walked (first_unknown sources.entry.files.now sources.entry.absent.now (seeking.by_directive (seeking.by_include files sources.entry.dirs.now room) made.old.defines (directives.include_of bytes.now))) result }
{
    if let Some(name) = include_of(bytes) {
        return include(sources, room, line, name, made);
    }
    match define_of(bytes) {
        Some(definition) => {
            let name = Bytes::from_slice(sources.alloc, definition.name)?;
            let value = Bytes::from_slice(sources.alloc, definition.value)?;
            made.defines.try_push(Define { name, value })?;
            Ok(())
        }
        None => Err(ExpandStop::Fault {
            line,
            fault: ExpandFault::BadDirective,
        }),
    }
}

// One line.
#[cycle(nested)]
fn take_line(
    sources: Sources<'_>,
    room: u32,
    line: u64,
    bytes: &[u8],
    made: &mut Expansion,
) -> Result<(), ExpandStop>
    ensures came { (files : Files) → Agrees sources.entry.files.now sources.entry.absent.now sources.entry.whole files
        → Came sources.entry.whole (expand_line (expanding.include files sources.entry.dirs.now room) line made.old.defines bytes.now) made.old.text made.new result }
    ensures looked { (files : Files) → Agrees sources.entry.files.now sources.entry.absent.now sources.entry.whole files
        → sources.entry.whole ≡ false → Walked (first_unknown sources.entry.files.now sources.entry.absent.now (seeking.by_line (seeking.by_include files sources.entry.dirs.now room) made.old.defines bytes.now)) result }
{
    if bytes.first() == Some(&b'#') {
        return take_directive(sources, room, line, bytes, made);
    }
    put_replaced(&mut made.text, made.defines.as_slice(), bytes)?;
    made.text.try_push(b'\n')?;
    Ok(())
}

/// Preprocesses a text, if that many files may be opened within it, after what was made before.
#[cycle(nested)]
pub fn expand(
    sources: Sources<'_>,
    room: u32,
    text: &[u8],
    made: &mut Expansion,
) -> Result<(), ExpandStop>
    ensures came { (files : Files) → Agrees sources.entry.files.now sources.entry.absent.now sources.entry.whole files
        → Came sources.entry.whole (expand_lines (expanding.include files sources.entry.dirs.now room) 1 made.old.defines (source_lines text.now)) made.old.text made.new result }
    ensures looked { (files : Files) → Agrees sources.entry.files.now sources.entry.absent.now sources.entry.whole files
        → sources.entry.whole ≡ false → Walked (first_unknown sources.entry.files.now sources.entry.absent.now (seeking.by_lines (expanding.include files sources.entry.dirs.now room) (seeking.by_include files sources.entry.dirs.now room) 1 made.old.defines (source_lines text.now))) result }
{
    let mut rest = text;
    let mut line = 1;
    'reading: while !rest.is_empty() {
        let len = line_len(rest);
        take_line(sources, room, line, &rest[..len], made)?;
        rest = behind_line(rest, len);
        line += 1;
    }
    Ok(())
}
