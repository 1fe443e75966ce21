ghost use Rattle.std.specs.Prelude.{◌≡◌, [], ◌∷◌, IfOk};
ghost use Rattle.edge_traits.specs.Told.{Grew};
ghost use Rattle.edge_traits.specs.Causes.{HasCause};
ghost use Rattle.edge_traits.specs.Links.{IsNew};
ghost use Rattle.edge_traits.specs.Doors.{DoorView, visited, accepted_peers, IsVisitTold};

use crate::{EdgeFault, Link};
use std::alloc::Global;

/// Takes connections in, and keeps an entry of each when it is left.
pub trait Door {
    type Link: Link;

    /// What it shows of its past.
    ghost shows: { Self → DoorView };

    /// This link came from this door.
    ghost came: { Self → Self.Link → Type 0 };

    /// Gives a link and the peer's IPv4 address as a number. It may wait.
    fn accept(&mut self, alloc: Global) -> Result<(Self::Link, u32), EdgeFault>
        ensures new { IfOk result (λ accepted. IsNew (Self.Link.shows accepted.0)) }
        ensures came { IfOk result (λ accepted. came self.new accepted.0) }
        ensures peers { Grew (shows self.old).peers (shows self.new).peers (accepted_peers result) }
        ensures visits { Grew (shows self.old).visits (shows self.new).visits [] }
        ensures keeps { (link : Self.Link) → came self.old link → came self.new link }
        ensures cause { HasCause (shows self.old).faults (shows self.new).faults result };

    /// Takes a link back, and adds its entry. It takes no memory: the link brings the room.
    fn leave(&mut self, link: Self::Link)
        requires { came self.old link }
        ensures visit { Grew (shows self.old).visits (shows self.new).visits (visited (Self.Link.shows link) ∷ []) }
        ensures told { IsVisitTold (shows self.new).visits (Self.Link.shows link) }
        ensures peers { Grew (shows self.old).peers (shows self.new).peers [] }
        ensures keeps { (other : Self.Link) → came self.old other → came self.new other }
        ensures faults { (shows self.new).faults ≡ (shows self.old).faults };

    /// The calls of a link keep that it came from here.
    ghost came_stays: { (door : Self) (a b : Self.Link) → came door a → Self.Link.follows a b → came door b };
}
