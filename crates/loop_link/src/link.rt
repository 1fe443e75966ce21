//! A link whose peer is the service.

ghost use Rattle.std.specs.Prelude.{◌≤◌, length};
ghost use Rattle.loop_link.specs.Ends.{EndsWhole, BeginsEmpty, SeesAll};

use crate::pipe::put_front;
use crate::serving::serve;
use daemon_service::Compilers;
use edge_traits::{EdgeFault, Exchange, Link, Station};
use farm_types::{Bytes, HostName, Room};
use std::alloc::Global;
use std::snapshot::Snapshot;

/// What the service runs over: the station, and the table of compilers.
#[derive(Drop)]
pub(crate) struct Held<S> {
    pub(crate) station: S,
    pub(crate) table: Compilers,
}

/// A link whose peer is the service. The service runs at the first receive, on what was sent before it.
#[derive(Drop)]
pub struct LoopLink<S> {
    pub(crate) alloc: Global,
    pub(crate) host: HostName,
    pub(crate) port: u16,
    pub(crate) room: Room<Exchange>,
    // the station as it was dialed, for clauses only
    pub(crate) dialed: Snapshot<S>,
    pub(crate) held: Held<S>,
    // after the first receive a send is out of memory
    pub(crate) closes: bool,
    pub(crate) sent: Bytes,
    // the service ran, and memory lasted
    pub(crate) served: bool,
    // memory ran out in the service
    pub(crate) wanted: bool,
    // how many bytes were sent before the first receive
    pub(crate) seen: usize,
    pub(crate) reply: Bytes,
    pub(crate) at: usize,
    pub(crate) ended: bool,
    ghost within: { at ≤ length reply },
    ghost front: { seen ≤ length sent },
    ghost whole: { EndsWhole ended at reply },
    ghost empty: { BeginsEmpty served ended at reply },
    ghost all: { SeesAll closes served seen sent },
}

impl<S: Station> LoopLink<S> {
    ghost use Rattle.std.specs.Prelude.{◌≡◌, true, OnOk, OnErr, IsErrOf};
    ghost use Rattle.edge_traits.specs.declared.faults.EdgeFault.TheVariants.{Failed, Memory};
    ghost use Rattle.loop_link.specs.Links.{loop_state, IsServed, LoopFollows, NonePassed, RanOut};

    /// Has the service's reply ready.
    fn ready(&mut self) -> Result<(), EdgeFault>
        ensures served { OnOk result (IsServed self.old.held.table.rows (S.ran self.new.held.station) (S.shows self.old.held.station) (S.shows self.new.held.station) (loop_state self.old) (loop_state self.new)) }
        ensures failed { IsErrOf result Failed → ⊥ }

        // After out of memory there is no other answer, and nothing is run again.
        ensures memory { OnErr result (RanOut S.shows self.old self.new) }
        ensures spent { self.old.wanted ≡ true → IsErrOf result Memory × (self.new ≡ self.old) }

        // Nothing else changes.
        ensures follows { LoopFollows S.shows S.ran self.old self.new }
        ensures passed { NonePassed (loop_state self.old) (loop_state self.new) }
    {
        if self.wanted {
            return Err(EdgeFault::Memory);
        }
        if self.served {
            return Ok(());
        }
        match serve(
            self.alloc,
            &mut self.held.station,
            &self.held.table,
            &self.sent,
        ) {
            Ok(reply) => {
                self.seen = self.sent.len();
                self.reply = reply;
                self.served = true;
                Ok(())
            }
            Err(fault) => {
                self.wanted = true;
                Err(fault)
            }
        }
    }
}

impl<S: Station> Link for LoopLink<S> {
    ghost use Rattle.std.specs.Prelude.{◌≡◌, ◌<◌, true, length, IfOk, OnOk, OnErr, IsErrOf, refl};
    ghost use Rattle.std.proofs.Common.{◌∙◌};
    ghost use Rattle.edge_traits.specs.declared.faults.EdgeFault.TheVariants.{Failed, Memory};
    ghost use Rattle.loop_link.specs.Replies.{Gives};
    ghost use Rattle.loop_link.specs.Following.{gives_stays};
    ghost use Rattle.daemon_service.proofs.Runs.{same3_itself, same3_then};
    ghost use Rattle.loop_link.specs.Links.{loop_state, loop_shows, after_send, IsServed, LoopFollows, RanOut, GivesNext, ShowsReceive};

    ghost shows = { λ l. loop_shows (loop_state l) };

    ghost follows = { λ a b. LoopFollows S.shows S.ran a b };

    ghost may_give = { λ l. Gives l.held.table.rows (S.ran l.held.station) };

    ghost follows_itself = { λ l. record { host = refl; port = refl; closes = refl; table = refl; same = same3_itself (S.ran l.held.station); dialed = refl; holds = λ holds. holds } };

    ghost follows_on = { λ a b c first second. record {
      host = second.host ∙ first.host;
      port = second.port ∙ first.port;
      closes = second.closes ∙ first.closes;
      table = second.table ∙ first.table;
      same = same3_then first.same second.same;
      dialed = second.dialed ∙ first.dialed;
      holds = λ holds. second.holds (first.holds holds);
    } };

    ghost origin_stays = { λ a b f i. record { host = f.host i; port = f.port i } };

    ghost may_give_stays = { λ a b f. gives_stays f.table f.same };

    fn send(&mut self, piece: &[u8]) -> Result<usize, EdgeFault>
        requires { 0 < length piece.now }
        ensures all { IfOk result (λ n. n ≡ length piece.now) }
        ensures failed { IsErrOf result Failed → ⊥ }
        ensures state { loop_state self.new ≡ after_send (loop_state self.old) piece.now result }
        ensures follows { LoopFollows S.shows S.ran self.old self.new }
    {
        if self.closes && self.served {
            return Err(EdgeFault::Memory);
        }
        self.sent.try_extend(piece)?;
        Ok(piece.len())
    }

    fn recv(&mut self, room: &mut [u8]) -> Result<usize, EdgeFault>
        requires { 0 < length room.old }
        ensures failed { IsErrOf result Failed → ⊥ }

        // After out of memory there is no other answer, and nothing is run again.
        ensures memory { OnErr result (RanOut S.shows self.old self.new) }
        ensures spent { (loop_state self.old).wanted ≡ true → IsErrOf result Memory × (self.new ≡ self.old) }

        ensures served { OnOk result (IsServed self.old.held.table.rows (S.ran self.new.held.station) (S.shows self.old.held.station) (S.shows self.new.held.station) (loop_state self.old) (loop_state self.new)) }
        ensures answer { IfOk result (λ n. GivesNext n (length room.old) (loop_state self.old) (loop_state self.new)) }
        ensures receives { ShowsReceive result room.new (loop_shows (loop_state self.old)) (loop_shows (loop_state self.new)) }
        ensures follows { LoopFollows S.shows S.ran self.old self.new }

        // A link that has ended gave the whole of the reply.
        ensures whole { (loop_state self.new).ended ≡ true → (loop_state self.new).at ≡ length (loop_state self.new).reply }
    {
        self.ready()?;
        let count = room.len().min(self.reply.len() - self.at);
        put_front(room, &self.reply.as_slice()[self.at..self.at + count]);
        self.at += count;
        if count == 0 {
            self.ended = true;
        }
        Ok(count)
    }
}
