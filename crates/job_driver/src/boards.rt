//! The boards of all workers of a build.
ghost use Rattle.std.specs.Prelude.{◌≡◌, ◌≤◌, [], true, All, IfOk, length, map, replicate, vec_capacity};
ghost use mathlib.Core.List.{IsPrefix};
ghost use Rattle.farm_monitor.specs.Boards.{board_watched, known_rows};
ghost use Rattle.progress_lines.specs.Counts.{known, ReadOn};
ghost use Rattle.job_driver.specs.Watching.{board_marked, AreTold, IsFreshMarker, IsTold};

use crate::marker::Marker;
use farm_monitor::{Watcher, board};
use std::alloc::{AllocError, Global};
use std::sync::Wait;

/// Makes boards until there are that many; the room was taken before. An error says that memory ran out.
pub fn make_boards<R: Wait>(
    rt: &R,
    alloc: Global,
    count: usize,
    markers: &mut Vec<Marker>,
    watchers: &mut Vec<Watcher>,
) -> Result<(), AllocError>
    requires none { (markers.old.items ≡ []) × (watchers.old.items ≡ []) }
    requires room { (count ≤ vec_capacity markers.old) × (count ≤ vec_capacity watchers.old) }
    ensures boards { map board_marked markers.new.items ≡ map board_watched watchers.new.items }
    ensures all { IfOk result (λ x. length markers.new.items ≡ count) }
    ensures fresh { All IsFreshMarker markers.new.items }
    ensures unread { known watchers.new.items ≡ replicate (length watchers.new.items) [] }
{
    'making: while markers.len() < count {
        let (shower, watcher) = board(rt, alloc)?;
        markers.push_reserved(Marker::new(shower));
        watchers.push_reserved(watcher);
    }
    Ok(())
}

/// A board gives its watcher all its rows. Whether each row was shown, and the watcher knows exactly these.
fn tell_one<R: Wait>(rt: &R, marker: &mut Marker, watcher: &mut Watcher) -> bool
    requires board { board_marked marker.old ≡ board_watched watcher.old }
    ensures told { result ≡ true → IsTold marker.old watcher.new }
    ensures read { IsPrefix (known_rows watcher.old) (known_rows watcher.new) }
{
    match marker.shower.tell(rt) {
        Ok(note) => watcher.learn(note) && marker.all,
        Err(_) => false,
    }
}

/// Each board gives its watcher all its rows. Whether each row was shown, and each watcher knows exactly those of its board.
fn tell_all<R: Wait>(rt: &R, markers: &mut [Marker], watchers: &mut [Watcher]) -> bool
    requires boards { map board_marked markers.old ≡ map board_watched watchers.old }
    ensures told { result ≡ true → AreTold markers.old watchers.new }
    ensures read { ReadOn (known watchers.old) (known watchers.new) }
{
    let Some((marker, other_markers)) = markers.split_first_mut() else {
        return true;
    };
    let Some((watcher, other_watchers)) = watchers.split_first_mut() else {
        return false;
    };
    let told = tell_one(rt, marker, watcher);
    let others = tell_all(rt, other_markers, other_watchers);
    told && others
}

/// Ends all boards.
pub fn end_boards<R: Wait>(rt: &R, mut markers: Vec<Marker>) {
    while let Some(marker) = markers.pop() {
        let Marker {
            shower,
            all: _,
            ended: _,
            shown: _,
        } = marker;
        shower.end(rt);
    }
    markers.destroy_empty();
}

/// Ends all boards, once each has given its watcher all its rows. Whether each row was shown, and each watcher knows exactly those of its board.
pub fn close_boards<R: Wait>(rt: &R, mut markers: Vec<Marker>, watchers: &mut [Watcher]) -> bool
    requires boards { map board_marked markers.items ≡ map board_watched watchers.old }
    ensures told { result ≡ true → AreTold markers.items watchers.new }
    ensures read { ReadOn (known watchers.old) (known watchers.new) }
{
    let told = tell_all(rt, markers.as_mut_slice(), watchers);
    end_boards(rt, markers);
    told
}
