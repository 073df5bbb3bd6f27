//! A piece of work at the gate.

ghost use Rattle.std.specs.Prelude.{IsTrue};

use st_outside::Gate;

/// The work of one piece, between the gate's begin and end of it. The work may ask that the piece has begun.
pub(crate) fn at_gate<G: Gate, T, F: FnOnce() -> T>(gate: &G, place: usize, work: F) -> T
    requires { IsTrue (G.begun gate.now place) → F.pre work }
    ensures done { F.post work result }
    ensures ended { IsTrue (G.ended gate.now place) }
{
    gate.begin(place);
    let answer = work();
    gate.end(place);
    answer
}
