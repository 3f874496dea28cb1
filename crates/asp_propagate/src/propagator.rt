//! What is asked of a part that follows the assignment beside the store.
//!
//! It is told of each literal that comes to hold, and of each that is taken back. Asked, it gives a nogood that is unit
//! or violated and counts for a search, or a literal that follows, or nothing, where it has nothing to say. Of such a
//! literal it writes the reason when it is asked for.
ghost use Rattle.std.specs.Prelude.{◌≡◌, ◌<◌, Some, None, true, IfOk, IfSome, IfNone, length, take, slice_index_or};
ghost use Rattle.asp_vars.specs.Literals.{value_of, holds_in};
ghost use Rattle.asp_vars.specs.Numbering.{var_count};
ghost use Rattle.asp_trail.specs.Entries.{assignment};
ghost use Rattle.asp_trail.specs.Trails.{IsVar};
ghost use Rattle.asp_trail.specs.Reasons.{IsReason};
ghost use Rattle.asp_trail.specs.declared.trail.Entry.{Entry};
ghost use Rattle.asp_propagate.specs.Late.{AreTold};
ghost use Rattle.asp_propagate.specs.Saying.{IsFollowing, IsToSay};
ghost use Rattle.asp_propagate.specs.Useful.{IsSmaller};

use asp_model::cost::Cost;
use asp_trail::said::{Implied, Said};
use asp_trail::trail::Trail;
use asp_vars::lit::Lit;
use asp_vars::nogood::Nogood;
use std::alloc::AllocError;

/// A part that follows the assignment.
pub trait Propagator: Drop {
    ghost use Rattle.std.specs.Prelude.{ℕ, List, Option, Bool, ℤ};
    ghost use Rattle.asp_model.specs.declared.program.Program.{Program};
    ghost use Rattle.asp_model.specs.Sets.{Atoms};
    ghost use Rattle.asp_model.specs.Sound.{IsSound};
    ghost use Rattle.asp_vars.specs.declared.nogood.Nogood.{Nogood};
    ghost use Rattle.asp_vars.specs.Literals.{Literal};
    ghost use Rattle.asp_trail.specs.declared.trail.Entry.{Entry};
    ghost use Rattle.asp_trail.specs.Trails.{IsOrdered};
    ghost use Rattle.asp_trail.specs.Told.{Told, told as tell, untold as untell};
    ghost use Rattle.asp_propagate.specs.Useful.{IsUseful};
    ghost use Rattle.asp_propagate.specs.Whole.{IsWhole, KeepsAll};

    /// The program, and the values told.
    ghost told: { Self → Told };

    /// The bound that stands, if one does.
    ghost bound: { Self → Option (List ℤ) };

    /// What it may give for a program and a bound.
    ghost gives: { Program → Option (List ℤ) → Nogood → Type 0 };

    /// That it has nothing to say of a program and a bound under these values.
    ghost silent: { Program → Option (List ℤ) → List (Option Bool) → Type 0 };

    /// That a literal follows from entries under a bound, by this name.
    ghost explains: { Program → Option (List ℤ) → List Entry → Literal → ℕ → Type 0 };

    /// What it may write for a program and a bound when it is asked for a reason.
    ghost late: { Program → Option (List ℤ) → Nogood → Type 0 };

    /// The literal holds from now on.
    fn assign(&mut self, lit: Lit)
        requires var { IsVar (var_count (told self.old).program) lit.var }
        requires none { value_of (told self.old).values lit.var ≡ None }
        ensures value { told self.new ≡ tell (told self.old) lit }
        ensures stays { bound self.new ≡ bound self.old };

    /// The literal, which holds, doesn't hold any more, nor does its complement.
    fn undo(&mut self, lit: Lit)
        requires var { IsVar (var_count (told self.old).program) lit.var }
        requires holds { holds_in (told self.old).values lit ≡ true }
        ensures value { told self.new ≡ untell (told self.old) lit }
        ensures stays { bound self.new ≡ bound self.old };

    /// From now on smaller costs than this one are wanted.
    fn set_bound(&mut self, cost: Cost)
        requires { IsSmaller cost (bound self.old) }
        ensures bound { bound self.new ≡ Some cost }
        ensures stays { told self.new ≡ told self.old };

    /// What it has to say under the values told, if it isn't silent.
    ///
    /// Want of memory is the one error. Whatever comes, the values and the bound stay.
    fn next(&mut self, trail: &Trail) -> Result<Option<Said>, AllocError>
        requires vars { trail.now.vars ≡ var_count (told self.old).program }
        requires values { (told self.old).values ≡ assignment trail.now.vars trail.now.entries }
        ensures values { told self.new ≡ told self.old }
        ensures stays { bound self.new ≡ bound self.old }
        ensures fixpoint { IfOk result (λ n. IfNone n (silent (told self.old).program (bound self.old) (told self.old).values)) }
        ensures said { IfOk result (λ n. IfSome n (IsToSay (gives (told self.old).program (bound self.old)) (explains (told self.old).program (bound self.old)) (var_count (told self.old).program) trail.now.entries)) };

    /// One more literal that follows, where something was said that isn't a nogood. None says nothing.
    fn more(&mut self, trail: &Trail) -> Option<Implied>
        requires vars { trail.now.vars ≡ var_count (told self.old).program }
        requires values { (told self.old).values ≡ assignment trail.now.vars trail.now.entries }
        ensures values { told self.new ≡ told self.old }
        ensures stays { bound self.new ≡ bound self.old }
        ensures follows { IfSome result (λ i. IsFollowing (explains (told self.old).program (bound self.old)) (var_count (told self.old).program) trail.now.entries i.lit i.name) };

    /// The nogood by which the literal at a place followed, as it was said to by this name.
    ///
    /// Want of memory is the one error.
    fn explain(&self, trail: &Trail, place: usize, name: u32) -> Result<Nogood, AllocError>
        requires vars { trail.now.vars ≡ var_count (told self.now).program }
        requires place { place < length trail.now.entries }
        requires told { AreTold (told self.now).values place trail.now.entries }
        requires explained { (d : Entry) → explains (told self.now).program (bound self.now) (take place trail.now.entries) (slice_index_or trail.now.entries place d).lit name }
        ensures late { IfOk result (late (told self.now).program (bound self.now)) }
        ensures reason { IfOk result (λ n. (d : Entry) → IsReason trail.now.entries place (slice_index_or trail.now.entries place d).lit n.lits) };

    /// What it may write it may give.
    ghost given: { (p : Program) (b : Option (List ℤ)) (n : Nogood) → late p b n → gives p b n };

    /// What follows under a bound follows under a smaller one.
    ghost stands: { (p : Program) (b : Option (List ℤ)) (c : List ℤ) (es : List Entry) (l : Literal) (name : ℕ) → IsSmaller c b → explains p b es l name → explains p (Some c) es l name };

    /// What follows has a reason that it may write.
    ghost reasoned: { (p : Program) (b : Option (List ℤ)) (es : List Entry) (l : Literal) (name : ℕ) → IsSound p → IsOrdered (var_count p) es → explains p b es l name → (n : Nogood) × late p b n × IsReason es (length es) l n.lits };

    /// What it gives counts for a search, whatever answers are known.
    ghost sound: { (p : Program) (b : Option (List ℤ)) (n : Nogood) (known : List Atoms) → IsSound p → gives p b n → IsUseful p known b n };

    /// Where it is silent under the values of all variables, the weight bodies are kept, and the cost is below the bound.
    ghost whole: { (p : Program) (b : Option (List ℤ)) (a : List (Option Bool)) (v : List Bool) → IsSound p → IsWhole p a v → silent p b a → KeepsAll p b v };
}
