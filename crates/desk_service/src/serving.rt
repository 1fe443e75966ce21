//! The service of a desk: it hears its callers, one after the other, and answers them.
ghost use Rattle.std.specs.Prelude.{◌≡◌, ℕ, List, string_bytes};
ghost use Rattle.desk_service.specs.Service.{Heard, HeardLine, Looked, Served, Turned, ask_event, due_then, end_event, line_event};

use crate::callers::{Callers, Came};
use desk_words::{Asked, Greetings, Told, parse_told};
use slot_desk::{Desk, Event, Reply};

fn ask_event(caller: u32, asked: Option<Asked>) -> Option<Event>
    ensures { result ≡ ask_event caller asked }
{
    match asked? {
        Asked::Hosts => Some(Event::Ask { caller }),
        Asked::Local => Some(Event::AskLocal { caller }),
        Asked::Within => Some(Event::AskWithin { caller }),
    }
}

fn end_event(caller: u32, now: u64, told: Option<Told>) -> Event
    ensures { result ≡ end_event caller now told }
{
    match told {
        None => Event::Lost { caller },
        Some(Told::Done) => Event::Done { caller },
        Some(Told::Broke) => Event::Broke { caller, now },
    }
}

// What a caller's line means to the desk.
fn line_event<const H: usize>(
    desk: &Desk<H>,
    greetings: &Greetings,
    caller: u32,
    line: &[u8],
    now: u64,
) -> Option<Event>
    ensures { result ≡ line_event (string_bytes greetings.now.token) desk.now.state caller line.now now }
{
    if desk.has_loan(caller) {
        Some(end_event(caller, now, parse_told(line)))
    } else if desk.is_waiting(caller) {
        Some(Event::Lost { caller })
    } else {
        ask_event(caller, greetings.read(line))
    }
}

// A caller said a line.
fn hear_line<const H: usize, C: Callers>(
    desk: &mut Desk<H>,
    greetings: &Greetings,
    callers: &mut C,
    caller: u32,
    line: &[u8],
    now: u64,
)
    ensures rules { desk.new.rules ≡ desk.old.rules }
    ensures heard { HeardLine desk.old.rules (string_bytes greetings.now.token) desk.old.state desk.new.state (C.log callers.old) (C.log callers.new) caller line.now now }
{
    if let Some(event) = line_event(desk, greetings, caller, line, now) {
        let reply = desk.step(event);
        callers.answer(reply);
    }
    if !desk.knows(caller) {
        callers.close(caller);
    }
}

// Hears what comes next, and says at which moment; none if the command has ended.
fn hear<const H: usize, C: Callers>(
    desk: &mut Desk<H>,
    greetings: &Greetings,
    callers: &mut C,
) -> Option<u64>
    ensures rules { desk.new.rules ≡ desk.old.rules }
    ensures heard { (came : Came) × Turned desk.old.rules (string_bytes greetings.now.token) desk.old.state desk.new.state (C.log callers.old) (C.log callers.new) (Heard came) }
{
    match callers.next() {
        Came::Line { caller, line, now } => {
            hear_line(desk, greetings, callers, caller, line.as_slice(), now);
            Some(now)
        }
        Came::Left { caller, now } => {
            let reply = desk.step(Event::Lost { caller });
            callers.answer(reply);
            Some(now)
        }
        Came::Time { now } => Some(now),
        Came::Ended => None,
    }
}

// Asks the desk who is next, and says whether one was given a place.
fn look<const H: usize, C: Callers>(desk: &mut Desk<H>, callers: &mut C, now: u64) -> bool
    ensures rules { desk.new.rules ≡ desk.old.rules }
    ensures looked { (token : List ℕ) → Turned desk.old.rules token desk.old.state desk.new.state (C.log callers.old) (C.log callers.new) (Looked now) }
    ensures due { (token : List ℕ) → result ≡ due_then desk.old.rules token desk.old.state (Looked now) }
{
    let reply = desk.step(Event::Next { now });
    callers.answer(reply);
    matches!(reply, Reply::Lent(_))
}

/// Serves a desk's callers until the command has ended. The desk is fed with exactly what they say, and exactly its answers are sent to
/// them. After each thing that comes, everybody is given a place who can be given one.
pub fn serve<const H: usize, C: Callers>(desk: &mut Desk<H>, greetings: &Greetings, callers: &mut C)
    ensures rules { desk.new.rules ≡ desk.old.rules }
    ensures served { Served desk.old.rules (string_bytes greetings.now.token) desk.old.state desk.new.state (C.log callers.old) (C.log callers.new) }
{
    let mut due = false;
    let mut now = 0;
    for _ in 0..u64::MAX {
        if due {
            due = look(desk, callers, now);
        } else {
            match hear(desk, greetings, callers) {
                Some(moment) => {
                    now = moment;
                    due = true;
                }
                None => return,
            }
        }
    }
}
