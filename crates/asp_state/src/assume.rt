//! How the literals of a cube are assumed.
ghost use Rattle.std.specs.Prelude.{◌≡◌, ◌++◌, ◌∷◌, [], List, None, false, IfSome, IsTrue};
ghost use Rattle.asp_vars.specs.Literals.{Literal, complement, has_literal};
ghost use Rattle.asp_vars.specs.Numbering.{var_count};
ghost use Rattle.asp_trail.specs.Entries.{level};
ghost use Rattle.asp_trail.specs.Trails.{IsVar};
ghost use Rattle.asp_trail_laws.specs.Starts.{AreAssumed, AreAtZero};
ghost use Rattle.asp_state.specs.SearchStates.{AreOf, HasBoth};

use asp_propagate::engine::Engine;
use asp_propagate::propagator::Propagator;
use asp_vars::lit::Lit;

// Makes the literal hold, unless its complement does. Says whether it holds.
fn assume<P: Propagator>(engine: &mut Engine<P>, lit: Lit) -> bool
    requires var { IsVar (var_count engine.old.program) lit.var }
    requires level { level engine.old.entries ≡ 0 }
    ensures same { engine.new ≡ record engine.old { entries = engine.new.entries } }
    ensures assumed { (cube : List Literal) → IsTrue (has_literal cube lit) → AreAssumed cube engine.old.entries → AreAssumed cube engine.new.entries }
    ensures stands { IsTrue result → (cube part : List Literal) → AreAssumed cube engine.old.entries → AreAtZero part engine.old.entries →
        AreAtZero (part ++ lit ∷ []) engine.new.entries }
    ensures clash { result ≡ false → (cube : List Literal) → AreAssumed cube engine.old.entries → IsTrue (has_literal cube (complement lit)) }
{
    let _len = engine.trail().len();
    match engine.trail().value(lit.var()) {
        None => {
            engine.assume(lit);
            true
        }
        Some(truth) => truth == lit.truth(),
    }
}

/// Makes the literals hold, one after the other. Stops at one whose complement holds, and gives that one.
pub fn assume_all<P: Propagator>(engine: &mut Engine<P>, cube: &[Lit]) -> Option<Lit>
    requires vars { AreOf engine.old.program cube.now }
    requires none { engine.old.entries ≡ [] }
    ensures same { engine.new ≡ record engine.old { entries = engine.new.entries } }
    ensures assumed { AreAssumed cube.now engine.new.entries }
    ensures stand { result ≡ None → AreAtZero cube.now engine.new.entries }
    ensures clash { IfSome result (HasBoth cube.now) }
{
    for lit in cube {
        if !assume(engine, *lit) {
            return Some(*lit);
        }
    }
    None
}
