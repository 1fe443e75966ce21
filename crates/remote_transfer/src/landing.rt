//! An object that goes into a file that has no name yet, while its reply is received.

ghost use Rattle.std.specs.Prelude.{◌≡◌, ◌≢◌, ◌<◌, ◌≤◌, ◌++◌, ℕ, List, [], length, IfOk, IfErr, OnErr};
ghost use Rattle.farm_types.specs.Limits.{piece_max};
ghost use Rattle.edge_traits.specs.FileMaps.{IsStaged};
ghost use Rattle.edge_traits.specs.Keepers.{IsIdle, IsPending, HasPending};
ghost use Rattle.edge_traits.specs.Causes.{Still};
ghost use Rattle.reply_stream.specs.Reader.{IsAt};
ghost use Rattle.remote_transfer.specs.declared.answers.Stop.TheVariants.{Memory as StopMemory};
ghost use Rattle.remote_transfer.specs.Links.{OnlyReceives};
ghost use Rattle.remote_transfer.specs.Landings.{KeeperStays, LandsAt, CanLand, LandedAt, WantsMemory, IsLanding, paired, ReceivedInto, LandsInto};

use crate::answers::{Landing, Stop};
use crate::receiving::{Brought, receive_piece};
use edge_traits::{EdgeFault, Keeper, Link};
use farm_types::{Bytes, Outcome};
use reply_stream::ReplyReader;
use std::alloc::Global;

/// How far an object has come into its file.
#[derive(Clone, Copy, Debug)]
pub(crate) enum ObjectState {
    /// No byte has come, and no put was begun.
    Waiting,
    /// All bytes so far are in the put that is pending.
    Begun,
    /// A fault of the keeper ended the put.
    Lost,
}

// Gives bytes to the put that is pending.
fn add_bytes<K: Keeper>(alloc: Global, keeper: &mut K, bytes: &[u8]) -> Result<ObjectState, Stop>
    requires pending { IsPending (K.shows keeper.old) }
    requires some { 0 < length bytes.now }
    ensures lands { (path object : List ℕ) → HasPending (K.shows keeper.old) path object
        → IfOk result (λ next. LandsAt next path (object ++ bytes.now) (K.shows keeper.old).faults (K.shows keeper.new)) }
    ensures can { IfOk result (λ next. CanLand next (K.shows keeper.new)) }
    ensures memory { WantsMemory result (K.shows keeper.new) }
    ensures stays { KeeperStays (K.shows keeper.old) (K.shows keeper.new) }
{
    match keeper.add(alloc, bytes) {
        Ok(()) => Ok(ObjectState::Begun),
        Err(EdgeFault::Failed) => Ok(ObjectState::Lost),
        Err(EdgeFault::Memory) => Err(Stop::Memory),
    }
}

// Begins the put of the object with its first bytes.
fn begin_with<K: Keeper>(
    alloc: Global,
    path: &Bytes,
    keeper: &mut K,
    bytes: &[u8],
) -> Result<ObjectState, Stop>
    requires idle { IsIdle (K.shows keeper.old) }
    requires name { ¬ (IsStaged path.now) }
    requires some { 0 < length bytes.now }
    ensures lands { IfOk result (λ next. LandsAt next path.now bytes.now (K.shows keeper.old).faults (K.shows keeper.new)) }
    ensures can { IfOk result (λ next. CanLand next (K.shows keeper.new)) }
    ensures memory { WantsMemory result (K.shows keeper.new) }
    ensures stays { KeeperStays (K.shows keeper.old) (K.shows keeper.new) }
{
    match keeper.begin(alloc, path) {
        Ok(()) => add_bytes(alloc, keeper, bytes),
        Err(EdgeFault::Failed) => Ok(ObjectState::Lost),
        Err(EdgeFault::Memory) => Err(Stop::Memory),
    }
}

// Gives the object's next bytes to its put, and begins it if these are the first. A put that was lost takes no more.
fn land<K: Keeper>(
    alloc: Global,
    path: &Bytes,
    keeper: &mut K,
    state: ObjectState,
    bytes: &[u8],
) -> Result<ObjectState, Stop>
    requires can { CanLand state (K.shows keeper.old) }
    requires name { ¬ (IsStaged path.now) }
    ensures lands { (object : List ℕ) (before : ℕ) → before ≤ (K.shows keeper.old).faults → LandsAt state path.now object before (K.shows keeper.old)
        → IfOk result (λ next. LandsAt next path.now (object ++ bytes.now) before (K.shows keeper.new)) }
    ensures can { IfOk result (λ next. CanLand next (K.shows keeper.new)) }
    ensures memory { WantsMemory result (K.shows keeper.new) }
    ensures some { OnErr result (0 < length bytes.now) }
    ensures stays { KeeperStays (K.shows keeper.old) (K.shows keeper.new) }
{
    if bytes.is_empty() {
        return Ok(state);
    }
    match state {
        ObjectState::Waiting => begin_with(alloc, path, keeper, bytes),
        ObjectState::Begun => add_bytes(alloc, keeper, bytes),
        ObjectState::Lost => Ok(ObjectState::Lost),
    }
}

// The place of the object of a whole reply of status 0. The put of an empty one is begun here.
fn settle<K: Keeper>(
    alloc: Global,
    path: &Bytes,
    keeper: &mut K,
    state: ObjectState,
) -> Result<Landing, Stop>
    requires can { CanLand state (K.shows keeper.old) }
    requires name { ¬ (IsStaged path.now) }
    ensures landed { (object : List ℕ) (before : ℕ) → before ≤ (K.shows keeper.old).faults → LandsAt state path.now object before (K.shows keeper.old)
        → IfOk result (λ landing. LandedAt landing path.now object before (K.shows keeper.new)) }
    ensures memory { WantsMemory result (K.shows keeper.new) }
    ensures stays { KeeperStays (K.shows keeper.old) (K.shows keeper.new) }
{
    match state {
        ObjectState::Waiting => match keeper.begin(alloc, path) {
            Ok(()) => Ok(Landing::Pending),
            Err(EdgeFault::Failed) => Ok(Landing::Lost),
            Err(EdgeFault::Memory) => Err(Stop::Memory),
        },
        ObjectState::Begun => Ok(Landing::Pending),
        ObjectState::Lost => Ok(Landing::Lost),
    }
}

// Gives the last bytes of an object to its put, and says where the object is.
fn land_last<K: Keeper>(
    alloc: Global,
    path: &Bytes,
    keeper: &mut K,
    state: ObjectState,
    bytes: &[u8],
    outcome: &Outcome,
) -> Result<Landing, Stop>
    requires can { CanLand state (K.shows keeper.old) }
    requires name { ¬ (IsStaged path.now) }
    ensures lands { (object : List ℕ) (before : ℕ) → before ≤ (K.shows keeper.old).faults → LandsAt state path.now object before (K.shows keeper.old)
        → (outcome.now.status ≢ 0 → object ++ bytes.now ≡ [])
        → IfOk result (λ landing. IsLanding landing outcome.now path.now (object ++ bytes.now) before (K.shows keeper.new)) }
    ensures memory { IfErr result (λ stop. stop ≡ StopMemory) }
    ensures stays { KeeperStays (K.shows keeper.old) (K.shows keeper.new) }
{
    let state = land(alloc, path, keeper, state, bytes)?;
    if outcome.status == 0 {
        settle(alloc, path, keeper, state)
    } else {
        Ok(Landing::Nothing)
    }
}

// Pairs an outcome with the place of its object.
fn with_landing(outcome: Outcome, landed: Result<Landing, Stop>) -> Result<(Outcome, Landing), Stop>
    ensures { result ≡ paired outcome landed }
{
    match landed {
        Ok(landing) => Ok((outcome, landing)),
        Err(stop) => Err(stop),
    }
}

// Receives a reply, and gives the bytes of its object to the keeper as they come.
fn receive_landing<L: Link, K: Keeper>(
    alloc: Global,
    link: &mut L,
    room: &mut [u8],
    reader: &mut ReplyReader,
    path: &Bytes,
    keeper: &mut K,
) -> Result<(Outcome, Landing), Stop>
    requires room { 0 < length room.old }
    requires small { length room.old ≤ piece_max }
    requires at { IsAt reader.old [] [] }
    requires idle { IsIdle (K.shows keeper.old) }
    requires name { ¬ (IsStaged path.now) }
    ensures received { ReceivedInto result path.now (L.shows link.old) (L.shows link.new) (K.shows keeper.old) (K.shows keeper.new) }
    ensures receives { OnlyReceives L.shows L.follows link.old link.new }
    ensures stays { KeeperStays (K.shows keeper.old) (K.shows keeper.new) }
{
    let mut state = ObjectState::Waiting;
    let mut have = 0;
    'receiving: loop {
        match receive_piece(link, room, reader, have)? {
            Brought::More { count, object } => {
                state = land(alloc, path, keeper, state, &room[object.from..object.to])?;
                have += count as u64;
            }
            Brought::Whole { object, outcome } => {
                let last = &room[object.from..object.to];
                let landed = land_last(alloc, path, keeper, state, last, &outcome);
                return with_landing(outcome, landed);
            }
        }
    }
}

// Gives up the put that is pending, if there is one. A keeper with none isn't asked.
fn give_up<K: Keeper>(keeper: &mut K)
    ensures idle { IsIdle (K.shows keeper.new) }
    ensures still { IsIdle (K.shows keeper.old) → Still (K.shows keeper.old).faults (K.shows keeper.new).faults }
    ensures stays { KeeperStays (K.shows keeper.old) (K.shows keeper.new) }
{
    if keeper.is_pending() {
        keeper.abandon();
    }
}

/// Receives a reply, and gives the bytes of the object to the keeper. Only a whole reply of status 0 leaves a put pending.
pub(crate) fn receive_into<L: Link, K: Keeper>(
    alloc: Global,
    link: &mut L,
    room: &mut [u8],
    path: &Bytes,
    keeper: &mut K,
) -> Result<(Outcome, Landing), Stop>
    requires room { 0 < length room.old }
    requires small { length room.old ≤ piece_max }
    requires idle { IsIdle (K.shows keeper.old) }
    requires name { ¬ (IsStaged path.now) }
    ensures lands { LandsInto result path.now (L.shows link.old) (L.shows link.new) (K.shows keeper.old) (K.shows keeper.new) }
    ensures receives { OnlyReceives L.shows L.follows link.old link.new }
    ensures stays { KeeperStays (K.shows keeper.old) (K.shows keeper.new) }
{
    let mut reader = ReplyReader::new(alloc);
    let received = receive_landing(alloc, link, room, &mut reader, path, keeper);
    drop(reader);
    match received {
        Ok(landed) => Ok(landed),
        Err(stop) => {
            give_up(keeper);
            Err(stop)
        }
    }
}
