//! Writing and reading of a request and a reply of 32 MiB.

ghost use Rattle.std.specs.Prelude.{◌<◌};

mod sample;

use crate::times::{Measured, report};
use compile_reply::Reply;
use compile_request::{RequestReader, Step};
use farm_types::Bytes;
use reply_stream::{Part, ReplyReader};
use sample::Sample;
use std::alloc::Global;
use std::rt::Runtime;

/// How long the pieces are that a reader is given.
#[derive(Clone, Copy)]
enum Piece {
    Large,
    Packet,
    Byte,
}

#[derive(Clone, Copy)]
enum Task {
    EncodeRequest,
    EncodeReply,
    Decode,
    Feed(Piece),
    FeedReply(Piece),
}

const TASKS: &[(&str, Task)] = &[
    ("encode a request", Task::EncodeRequest),
    ("encode a reply", Task::EncodeReply),
    ("decode a reply", Task::Decode),
    (
        "feed a request in pieces of 65,536 bytes",
        Task::Feed(Piece::Large),
    ),
    (
        "feed a request in pieces of 1,460 bytes",
        Task::Feed(Piece::Packet),
    ),
    (
        "feed a request in pieces of 1 byte",
        Task::Feed(Piece::Byte),
    ),
    (
        "feed a reply in pieces of 65,536 bytes",
        Task::FeedReply(Piece::Large),
    ),
    (
        "feed a reply in pieces of 1,460 bytes",
        Task::FeedReply(Piece::Packet),
    ),
    (
        "feed a reply in pieces of 1 byte",
        Task::FeedReply(Piece::Byte),
    ),
];

/// How many bytes a piece has.
fn len_of(piece: Piece) -> usize
    ensures { 0 < result }
{
    match piece {
        Piece::Large => 65_536,
        Piece::Packet => 1_460,
        Piece::Byte => 1,
    }
}

fn feed(alloc: Global, text: &[u8], piece: Piece) -> bool {
    let mut reader = RequestReader::new(alloc);
    for piece in text.chunks(len_of(piece)) {
        if reader.is_spent() {
            return false;
        }
        if let Step::Whole { .. } = reader.feed(piece) {
            return true;
        }
    }
    false
}

fn feed_reply(alloc: Global, text: &[u8], piece: Piece) -> bool {
    let mut reader = ReplyReader::new(alloc);
    for piece in text.chunks(len_of(piece)) {
        if reader.is_spent() {
            return false;
        }
        if let Part::Whole { .. } = reader.feed(piece) {
            return true;
        }
    }
    false
}

/// A task over the sample.
#[derive(Clone, Copy)]
struct WireTask<'a> {
    task: Task,
    sample: &'a Sample,
}

impl<'a> Measured for WireTask<'a> {
    fn copy(&self, alloc: Global) -> bool {
        Bytes::from_slice(alloc, self.sample.outcome.object.as_slice()).is_ok()
    }

    fn run(&self, alloc: Global) -> bool {
        let sample = self.sample;
        match self.task {
            Task::EncodeRequest if sample.request.fits() => {
                compile_request::encode(alloc, &sample.request).is_ok()
            }
            Task::EncodeReply if sample.outcome.fits() => {
                compile_reply::encode(alloc, &sample.outcome).is_ok()
            }
            Task::EncodeRequest | Task::EncodeReply => false,
            Task::Decode => matches!(
                compile_reply::decode(alloc, sample.reply_text.as_slice()),
                Reply::Whole { .. }
            ),
            Task::Feed(piece) => feed(alloc, sample.request_text.as_slice(), piece),
            Task::FeedReply(piece) => feed_reply(alloc, sample.reply_text.as_slice(), piece),
        }
    }
}

fn measure_each<R: Runtime>(
    rt: &R,
    alloc: Global,
    sample: &Sample,
    tasks: &[(&str, Task)],
) -> anyhow::Result<()> {
    for (name, task) in tasks {
        let task = *task;
        report(rt, alloc, name, &WireTask { task, sample })?;
    }
    Ok(())
}

/// Prints a line for each task.
pub fn measure_wire<R: Runtime>(rt: &R, alloc: Global) -> anyhow::Result<()> {
    let sample = Sample::new(alloc)?;
    measure_each(rt, alloc, &sample, TASKS)
}
