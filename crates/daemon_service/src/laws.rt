//! Laws of what a connection shows of its service.

ghost use Rattle.std.specs.Prelude.{◌≡◌, ◌≤◌, ℕ, ◌⊎◌, List, length, true, false};
ghost use Rattle.farm_types.specs.declared.request.Request.{Request};
ghost use Rattle.wire_tokens.specs.declared.faults.RequestFault.{RequestFault};
ghost use Rattle.wire_tokens.specs.Request.{BeginsRequest, RequestFaultStands, IsShortRequest};
ghost use Rattle.edge_traits.specs.declared.entries.Run.{Run};
ghost use Rattle.edge_traits.specs.declared.entries.Visit.{Visit};
ghost use Rattle.edge_traits.specs.Causes.{Rose};
ghost use Rattle.edge_traits.specs.Stations.{StationView};
ghost use Rattle.daemon_service.specs.declared.compilers.Compiler.{Compiler};
ghost use Rattle.daemon_service.specs.declared.served.Served.{Served};
ghost use Rattle.daemon_service.specs.declared.served.Served.TheVariants.{Refused, Cut, Memory};
ghost use Rattle.daemon_service.specs.Services.{ServedAs, EndsBy, IsAnswered, LinkCause, StationCause};

/// A service answers in one way: what a connection shows decides its answer, up to lack of memory. It does nothing.
pub fn one_reading_of_services()
    // A whole request is answered if neither the link nor the station failed and no send took nothing.
    ensures whole { (table : List Compiler) (served : Served) (runs : List Run) (x : Visit) (used : ℕ) (q : Request) (old now : ℕ) (before after : StationView)
        → ServedAs table served runs x → EndsBy served x → LinkCause served old now → StationCause served before after
        → BeginsRequest x.given used q → (Rose old now → ⊥) → (Rose before.faults after.faults → ⊥) → (Rose before.overruns after.overruns → ⊥)
        → x.stopped ≡ false → IsAnswered served ⊎ (served ≡ Memory) }

    // If there is a fault in what was given, it is refused by that fault.
    ensures fault { (table : List Compiler) (served : Served) (runs : List Run) (x : Visit) (at : ℕ) (fault : RequestFault)
        → ServedAs table served runs x → RequestFaultStands x.given at fault → (served ≡ Refused at fault) ⊎ (served ≡ Memory) }

    // If what was given is short and the link didn't fail, the request was cut.
    ensures short { (table : List Compiler) (served : Served) (runs : List Run) (x : Visit) (old now : ℕ)
        → ServedAs table served runs x → LinkCause served old now → IsShortRequest x.given → (Rose old now → ⊥)
        → (served ≡ Cut (length x.given)) ⊎ (served ≡ Memory) }

    // If the link gave its end, the request was cut there.
    ensures end { (table : List Compiler) (served : Served) (runs : List Run) (x : Visit)
        → ServedAs table served runs x → EndsBy served x → x.ended ≡ true → served ≡ Cut (length x.given) }

    // There is at most one run.
    ensures runs { (table : List Compiler) (served : Served) (runs : List Run) (x : Visit) → ServedAs table served runs x → length runs ≤ 1 }
{}
