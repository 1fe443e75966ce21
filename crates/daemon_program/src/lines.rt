//! The lines of the log. Each function adds a text at the end of another.

ghost use Rattle.std.specs.Prelude.{◌≡◌, ◌++◌, IfOk, OnOk};
ghost use Rattle.std.specs.Fmt.{decimal};
ghost use Rattle.wire_tokens.specs.Token.{lower_digits};
ghost use Rattle.daemon_program.specs.Sharing.{counts_line, shared_line};
ghost use Rattle.daemon_program.specs.Texts.{book_line, line_text, rule_text, served_text, what_text};

use daemon_service::{Served, fault_number};
use daemon_worker::{Entry, Met};
use farm_types::Bytes;
use object_cache::Stats;
use shared_cache::{Counts, SharedStats};
use std::alloc::{AllocError, Global};
use wire_tokens::{Name4, write_token};

fn add_number(alloc: Global, text: &mut Bytes, number: u64) -> Result<(), AllocError>
    ensures { OnOk result (text.new ≡ text.old ++ decimal number) }
{
    let digits = number.to_string(alloc)?;
    text.try_extend(digits.as_bytes())
}

fn add_status(text: &mut Bytes, status: u32) -> Result<(), AllocError>
    ensures { OnOk result (text.new ≡ text.old ++ lower_digits 8 status) }
{
    let mut token = [0; 12];
    write_token(Name4(*b"STAT"), status, &mut token);
    text.try_extend(&token[4..])
}

fn add_served(alloc: Global, text: &mut Bytes, served: Served) -> Result<(), AllocError>
    ensures { OnOk result (text.new ≡ text.old ++ served_text served) }
{
    match served {
        Served::Answered(status) => {
            text.try_extend(b"answered ")?;
            add_status(text, status)
        }
        Served::Refused { at, fault } => {
            text.try_extend(b"refused ")?;
            add_number(alloc, text, u64::from(fault_number(fault)))?;
            text.try_extend(b" at ")?;
            add_number(alloc, text, at)
        }
        Served::Cut { have } => {
            text.try_extend(b"cut ")?;
            add_number(alloc, text, have)
        }
        Served::LinkFault => text.try_extend(b"link fault"),
        Served::Stopped => text.try_extend(b"stopped"),
        Served::StationFault => text.try_extend(b"child fault"),
        Served::Memory => text.try_extend(b"no memory"),
    }
}

fn add_rule(alloc: Global, text: &mut Bytes, rule: Option<u32>) -> Result<(), AllocError>
    ensures { OnOk result (text.new ≡ text.old ++ rule_text rule) }
{
    match rule {
        Some(number) => {
            text.try_extend(b"rule ")?;
            add_number(alloc, text, u64::from(number))
        }
        None => text.try_extend(b"no rule"),
    }
}

fn add_what(alloc: Global, text: &mut Bytes, what: Met) -> Result<(), AllocError>
    ensures { OnOk result (text.new ≡ text.old ++ what_text what) }
{
    match what {
        Met::Served(served) => add_served(alloc, text, served),
        Met::Denied { rule, .. } => {
            text.try_extend(b"denied by ")?;
            add_rule(alloc, text, rule)
        }
        Met::DoorFault => text.try_extend(b"door fault"),
        Met::DoorMemory => text.try_extend(b"no memory"),
    }
}

/// The line of an entry.
pub(crate) fn line(alloc: Global, entry: &Entry) -> Result<Bytes, AllocError>
    ensures { IfOk result (λ text. text ≡ line_text entry.now) }
{
    let mut text = Bytes::from_slice(alloc, b"door ")?;
    add_number(alloc, &mut text, u64::from(entry.door))?;
    text.try_extend(b" conn ")?;
    add_number(alloc, &mut text, u64::from(entry.number))?;
    text.try_extend(b" ")?;
    add_what(alloc, &mut text, entry.what)?;
    text.try_extend(b"\n")?;
    Ok(text)
}

/// The line of a door's book.
pub(crate) fn book_line(alloc: Global, door: u32, stats: &Stats) -> Result<Bytes, AllocError>
    ensures { IfOk result (λ text. text ≡ book_line door stats.now) }
{
    let mut text = Bytes::from_slice(alloc, b"cache door ")?;
    add_number(alloc, &mut text, u64::from(door))?;
    text.try_extend(b" hits ")?;
    add_number(alloc, &mut text, stats.hits)?;
    text.try_extend(b" misses ")?;
    add_number(alloc, &mut text, stats.misses)?;
    text.try_extend(b" unkept ")?;
    add_number(alloc, &mut text, stats.unkept)?;
    text.try_extend(b" bytes ")?;
    add_number(alloc, &mut text, stats.bytes)?;
    text.try_extend(b"\n")?;
    Ok(text)
}

/// The line of a door whose station shares a book.
pub(crate) fn counts_line(alloc: Global, door: u32, counts: &Counts) -> Result<Bytes, AllocError>
    ensures { IfOk result (λ text. text ≡ counts_line door counts.now) }
{
    let mut text = Bytes::from_slice(alloc, b"cache door ")?;
    add_number(alloc, &mut text, u64::from(door))?;
    text.try_extend(b" hits ")?;
    add_number(alloc, &mut text, counts.hits)?;
    text.try_extend(b" misses ")?;
    add_number(alloc, &mut text, counts.misses)?;
    text.try_extend(b"\n")?;
    Ok(text)
}

/// The line of the book that doors share.
pub(crate) fn shared_line(alloc: Global, stats: &SharedStats) -> Result<Bytes, AllocError>
    ensures { IfOk result (λ text. text ≡ shared_line stats.now) }
{
    let mut text = Bytes::from_slice(alloc, b"cache shared unkept ")?;
    add_number(alloc, &mut text, stats.unkept)?;
    text.try_extend(b" bytes ")?;
    add_number(alloc, &mut text, stats.bytes)?;
    text.try_extend(b"\n")?;
    Ok(text)
}
