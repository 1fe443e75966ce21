//! The connections of a desk, over sockets of this machine.
ghost use Rattle.std.specs.Prelude.{[], true};
ghost use Rattle.edge_traits.specs.Told.{untold};

use crate::place::{Found, Place};
use crate::places::{GREETING, Places};
use crate::watch::Watch;
use desk_service::{Callers, Came};
use desk_words::{Answer, answer_text};
use mio::Token;
use slot_desk::{Loan, Place as Lent, Reply};
use std::alloc::{AllocError, Global};
use std::io::{self, Read};
use std::net::{Net, OpenListener, OpenStream};
use std::os::fd::AsRawFd;
use std::rt::Clock;
use std::thread;
use std::time::Duration;

/// The connections of a desk at a listener, and the parent of its process, whose end ends the service.
#[derive(Drop)]
pub struct DeskRoom<R, L, S, P> {
    rt: R,
    alloc: Global,
    listener: L,
    parent: P,
    /// The entries of the host list, as its print has them.
    entries: Vec<Vec<u8>>,
    watch: Watch,
    places: Places<S>,
    /// How many connections were taken in.
    taken: u32,
    /// Whether the listener may have a connection.
    is_called: bool,
    /// Whether the system refused to take one in.
    is_refused: bool,
    /// Whether the parent may have something.
    is_told: bool,
    /// Whether the parent says nothing more.
    is_closed: bool,
    has_ended: bool,
    /// The number of the command's process, once the parent has said it.
    command: Option<u32>,
}

/// How many callers the desk knows at most.
pub const CALLERS: u32 = 512;

const PLACES: usize = CALLERS as usize + GREETING;

/// How many connections are taken in before their lines are read.
const TAKEN_AT_ONCE: usize = GREETING / 2;

/// How long the desk waits at most while somebody waits for it.
const LOOK_MILLIS: u64 = 50;

// The numbers of the listener and of the parent, above those of the places.
const LISTENER: usize = PLACES;

const PARENT: usize = PLACES + 1;

impl<R: Net + Drop, L: OpenListener + AsRawFd + Drop, P: AsRawFd + Drop> DeskRoom<
    R,
    L,
    L::Stream,
    P,
> {
    /// A room without connections, for the callers of a desk of these host entries.
    ///
    /// # Errors
    /// The system refuses a poll, or memory runs out.
    pub fn new(
        rt: R,
        alloc: Global,
        listener: L,
        parent: P,
        entries: Vec<Vec<u8>>,
    ) -> io::Result<DeskRoom<R, L, L::Stream, P>> {
        let watch = watch_of(&rt, alloc, &listener, &parent)?;
        let places = Places::new(alloc, PLACES)?;
        Ok(DeskRoom {
            rt,
            alloc,
            listener,
            parent,
            entries,
            watch,
            places,
            taken: 0,
            is_called: true,
            is_refused: false,
            is_told: false,
            is_closed: false,
            has_ended: false,
            command: None,
        })
    }
}

// A watch of a listener and of a parent.
fn watch_of<R: Net, L: OpenListener + AsRawFd, P: AsRawFd>(
    rt: &R,
    alloc: Global,
    listener: &L,
    parent: &P,
) -> io::Result<Watch> {
    listener.set_nonblocking(true)?;
    let watch = Watch::new(rt, alloc)?;
    watch.add(listener, LISTENER)?;
    watch.add(parent, PARENT)?;
    Ok(watch)
}

impl<R, L, S, P> DeskRoom<R, L, S, P> {
    /// The number of the command's process, if the parent has said it.
    pub fn command(&self) -> Option<u32> {
        self.command
    }

    // How long to wait for what comes: for ever, if nobody waits for the desk.
    fn patience(&self) -> Option<Duration> {
        let look = Some(Duration::from_millis(LOOK_MILLIS));
        if self.is_called {
            return if self.is_refused {
                look
            } else {
                Some(Duration::ZERO)
            };
        }
        if self.places.is_awaited() { look } else { None }
    }

    // Waits until something comes, or until it is time to look again.
    fn wait(&mut self)
    where
        R: Clock,
    {
        let patience = self.patience();
        if self.watch.wait(patience).is_err() {
            thread::sleep(&self.rt, Duration::from_millis(LOOK_MILLIS));
            return;
        }
        for event in self.watch.events() {
            let Token(at) = event.token();
            if at == LISTENER {
                self.is_called = true;
            } else if at == PARENT {
                self.is_told = true;
                self.is_closed |= event.is_read_closed();
            } else if let Some(place) = self.places.get_mut(at) {
                place.has_news = true;
            }
        }
    }
}

impl<R: Clock, L, S, P> DeskRoom<R, L, S, P> {
    fn moment(&self) -> Duration {
        self.rt.monotonic().unwrap_or(Duration::ZERO)
    }
}

impl<R, L, S, P: Read> DeskRoom<R, L, S, P> {
    // Hears the parent: the number of the command's process, and its end.
    fn hear_parent(&mut self) {
        self.is_told = self.is_closed;
        let mut room = [0u8; 32];
        match self.parent.read(&mut room) {
            Ok(0) | Err(_) => self.has_ended = true,
            Ok(count) => {
                let text = room.get(..count).unwrap_or(&[]);
                if let Ok(text) = std::str::from_utf8(text) {
                    if let Ok(number) = text.trim().parse::<u32>() {
                        self.command = Some(number);
                    }
                }
            }
        }
    }
}

impl<R: Clock, L: OpenListener<Stream = S>, S: OpenStream + AsRawFd + Drop, P> DeskRoom<
    R,
    L,
    S,
    P,
> {
    // Takes in connections that the listener has, at most `TAKEN_AT_ONCE`: one that has said its line isn't displaced before that is read.
    fn take_in(&mut self) {
        self.is_refused = false;
        for _ in 0..TAKEN_AT_ONCE {
            if !self.is_called {
                return;
            }
            match self.listener.accept() {
                Ok((stream, _)) => self.seat(stream),
                Err(error) if error.kind() == io::ErrorKind::WouldBlock => self.is_called = false,
                Err(_) => {
                    self.is_refused = true;
                    return;
                }
            }
        }
    }

    // Gives a connection a place. If too many have not said a line, the oldest of them goes.
    fn seat(&mut self, stream: S) {
        let Some(at) = self.places.make_room() else {
            return;
        };
        let Some(caller) = self.taken.checked_add(1) else {
            return;
        };
        let _ = stream.set_nodelay(true);
        if stream.set_nonblocking(true).is_err() || self.watch.add(&stream, at).is_err() {
            return;
        }
        self.taken = caller;
        let place = Place::new(stream, caller, self.moment());
        self.places.fill(at, place);
    }
}

impl<R: Clock, L, S: Read + Drop, P> DeskRoom<R, L, S, P> {
    // What comes first of those that have something.
    fn first_heard(&mut self) -> Option<Came> {
        for _ in 0..PLACES {
            let at = self.places.first(true)?;
            let now = self.moment().as_secs();
            let place = self.places.get_mut(at)?;
            let caller = place.caller;
            match place.look(self.alloc) {
                Found::Line(line) => return Some(Came::Line { caller, line, now }),
                Found::End => {
                    self.places.remove(at);
                    return Some(Came::Left { caller, now });
                }
                Found::Nothing => {}
            }
        }
        None
    }
}

impl<R, L, S: io::Write, P> DeskRoom<R, L, S, P> {
    // The line of an answer.
    fn line_of(&self, answer: Answer<'_>) -> Result<Vec<u8>, AllocError> {
        let mut line = answer_text(self.alloc, answer)?;
        line.push(b'\n')?;
        Ok(line)
    }

    fn entry(&self, at: u32) -> &[u8] {
        match self.entries.get(at as usize) {
            Some(entry) => entry.as_slice(),
            None => &[],
        }
    }

    fn say(&mut self, caller: u32, answer: Result<Vec<u8>, AllocError>) {
        let Some(at) = self.places.of(caller) else {
            return;
        };
        if let Some(place) = self.places.get_mut(at) {
            match answer {
                Ok(line) => place.say(line.as_slice()),
                Err(_) => place.end(),
            }
        }
    }

    fn lend(&mut self, loan: Loan) {
        let line = match loan.place {
            Lent::Host(at) => self.line_of(Answer::Host(self.entry(at))),
            Lent::Here | Lent::LocalSlot => self.line_of(Answer::Here),
        };
        self.say(loan.caller, line);
    }
}

impl<
    R: Clock,
    L: OpenListener<Stream = S>,
    S: OpenStream + Read + io::Write + AsRawFd + Drop,
    P: Read,
> Callers for DeskRoom<R, L, S, P> {
    ghost log = { λ room. untold [] };

    fn next(&mut self) -> Came {
        if self.has_ended {
            return Came::Ended;
        }
        if let Some(came) = self.first_heard() {
            return came;
        }
        if !self.is_told {
            self.wait();
        }
        if self.is_told {
            self.hear_parent();
        }
        self.take_in();
        let now = self.moment();
        self.places.give_up_late(now);
        Came::Time { now: now.as_secs() }
    }

    fn answer(&mut self, reply: Reply) {
        match reply {
            Reply::Nobody => {}
            Reply::Lent(loan) => self.lend(loan),
            Reply::Alone { caller } => {
                let line = self.line_of(Answer::Alone);
                self.say(caller, line);
            }
            Reply::Within { caller } => {
                let line = self.line_of(Answer::Here);
                self.say(caller, line);
            }
        }
    }

    fn close(&mut self, caller: u32) {
        if let Some(at) = self.places.of(caller) {
            self.places.remove(at);
        }
    }
}
