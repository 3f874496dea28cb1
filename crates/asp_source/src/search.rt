//! The search for an unfounded set, from atoms without a source.
ghost use Rattle.std.specs.Prelude.{◌≡◌, ℕ, ◌+◌, ◌-◌, ◌^◌, ◌<◌, ◌≤◌, true, false, All, [], IfOk, IfNone, IfSome, length, slice_set};
ghost use Rattle.asp_model.specs.Models.{atoms_of};
ghost use Rattle.asp_vars.specs.Numbering.{var_count, nth_atom};
ghost use Rattle.asp_vars.specs.Tabled.{IsAtomVar};
ghost use Rattle.asp_loop.specs.LoopNogoods.{IsLoopNogood};
ghost use Rattle.asp_scc.specs.Components.{AreComponents};
ghost use Rattle.asp_source.specs.Loops.{IsUnfoundedLoop};
ghost use Rattle.asp_source.specs.Marks.{is_marked, atoms_at, AreBlank};
ghost use Rattle.asp_source.specs.Loops.{IsFound};
ghost use Rattle.asp_source.specs.Pointers.{ArePointers};
ghost use Rattle.asp_model.specs.Sets.{Atoms};

use crate::gather::{Region, admit, gather};
use crate::loose::{atom_at, choose, collect, drain, settle};
use crate::queue::Queue;
use crate::ranks::Ranks;
use asp_loop::loops::loop_nogood;
use asp_model::program::Atom;
use asp_scc::components::Components;
use asp_vars::assign::Assign;
use asp_vars::compiled::Compiled;
use asp_vars::lit::Var;
use asp_vars::nogood::Nogood;
use std::alloc::{AllocError, Global};

/// A program with its components, and the values told.
#[derive(Clone, Copy)]
pub struct Setting<'a> {
    /// Gives the memory of what is found.
    pub alloc: Global,
    /// The program.
    pub compiled: &'a Compiled,
    /// Its components.
    pub components: &'a Components,
    /// The values of its variables.
    pub values: &'a Assign,
}

/// An unfounded set that was found.
#[derive(Drop)]
pub struct Unfounded {
    /// The set.
    pub atoms: Vec<Atom>,
    /// One of them, a true one if there is one.
    pub atom: Atom,
}

// The candidates among those that joined, which are left without a source.
fn left_of(
    setting: &Setting,
    loose: &[bool],
    places: &[u32],
) -> Result<Option<Unfounded>, AllocError>
    requires places { All (λ k. k < length (atoms_of setting.now.compiled.now)) places.now }
    requires values { length setting.now.values.now ≡ var_count setting.now.compiled.now + 1 }
    requires loose { length loose.now ≡ length (atoms_of setting.now.compiled.now) + 1 }
    requires atoms { (v : ℕ) → is_marked loose.now v ≡ true → IsAtomVar setting.now.compiled.now v }
    ensures none { IfOk result (λ o. IfNone o (All (λ k. is_marked loose.now (k + 1) ≡ false) places.now)) }
    ensures atoms { IfOk result (λ o. IfSome o (λ f. f.atoms.items ≡ atoms_at setting.now.compiled.now loose.now places.now)) }
    ensures atom { IfOk result (λ o. IfSome o (λ f. (v : ℕ) × (is_marked loose.now v ≡ true) × (f.atom ≡ nth_atom setting.now.compiled.now (v - 1)))) }
{
    let _vars = setting.compiled.vars();
    let Some(var) = choose(setting.values, loose, places) else {
        return Ok(None);
    };
    let atoms = collect(setting.alloc, setting.compiled, loose, places)?;
    let atom = atom_at(setting.compiled, var);
    Ok(Some(Unfounded { atoms, atom }))
}

// An unfounded set, if an atom without source brings one with it. If it doesn't, all that it brings have a source then,
// and the queue is as it was. No atom is a candidate before or after it.
fn look(
    setting: &Setting,
    var: Var,
    sources: &mut [Var],
    ranks: &mut Ranks,
    queue: &mut Queue,
    loose: &mut [bool],
    waiting: &mut Queue,
    joined: &mut Queue,
) -> Result<Option<Unfounded>, AllocError>
    requires components { AreComponents setting.now.compiled.now setting.now.components.now }
    requires values { length setting.now.values.now ≡ var_count setting.now.compiled.now + 1 }
    requires loose { length loose.old ≡ length (atoms_of setting.now.compiled.now) + 1 }
    requires blank { AreBlank loose.old }
    requires waiting { length waiting.old ≡ length (atoms_of setting.now.compiled.now) }
    requires joined { length joined.old ≡ length (atoms_of setting.now.compiled.now) }
    requires var { IsAtomVar setting.now.compiled.now var }
    requires time { ranks.old.clock + 2 ^ 31 < 2 ^ 64 }
    requires pointers { ArePointers setting.now.compiled.now setting.now.components.now setting.now.values.now sources.old ranks.old.ranks (slice_set queue.old (var - 1) true) [] }
    ensures room { length waiting.new ≡ length waiting.old }
    ensures seats { length joined.new ≡ length joined.old }
    ensures blank { AreBlank loose.new }
    ensures time { ranks.new.clock ≤ ranks.old.clock + 2 ^ 31 }
    ensures pointers { ArePointers setting.now.compiled.now setting.now.components.now setting.now.values.now sources.new ranks.new.ranks queue.new [] }
    ensures same { IfOk result (λ o. IfNone o (queue.new ≡ queue.old)) }
    ensures found { IfOk result (λ o. IfSome o (λ f. IsFound setting.now.compiled.now setting.now.values.now f.atoms.items f.atom)) }
{
    let compiled = setting.compiled;
    let values = setting.values;
    let _program = compiled.program();
    let _vars = compiled.vars();
    let component = setting.components.of(var);
    if sources[var as usize] != 0 || setting.components.trivial(component) {
        return Ok(None);
    }
    let region = Region {
        compiled,
        components: setting.components,
        values,
        ranks,
        component,
    };
    admit(&region, sources, loose, waiting, joined, 0, var);
    gather(&region, sources, loose, waiting, joined);
    let places = joined.as_slice();
    settle(compiled, values, sources, ranks, loose, waiting, places);
    let left = left_of(setting, loose, places);
    drain(queue, loose, joined);
    left
}

/// An unfounded set, and an atom of it, if there is one. Atoms that get a source leave the queue, and false ones.
pub fn first_unfounded(
    setting: &Setting,
    sources: &mut [Var],
    ranks: &mut Ranks,
    queue: &mut Queue,
    loose: &mut [bool],
    waiting: &mut Queue,
    joined: &mut Queue,
) -> Result<Option<Unfounded>, AllocError>
    requires components { AreComponents setting.now.compiled.now setting.now.components.now }
    requires values { length setting.now.values.now ≡ var_count setting.now.compiled.now + 1 }
    requires loose { length loose.old ≡ length (atoms_of setting.now.compiled.now) + 1 }
    requires blank { AreBlank loose.old }
    requires waiting { length waiting.old ≡ length (atoms_of setting.now.compiled.now) }
    requires joined { length joined.old ≡ length (atoms_of setting.now.compiled.now) }
    requires time { ranks.old.clock < 2 ^ 63 }
    requires pointers { ArePointers setting.now.compiled.now setting.now.components.now setting.now.values.now sources.old ranks.old.ranks queue.old [] }
    ensures room { length waiting.new ≡ length waiting.old }
    ensures seats { length joined.new ≡ length joined.old }
    ensures blank { AreBlank loose.new }
    ensures pointers { ArePointers setting.now.compiled.now setting.now.components.now setting.now.values.now sources.new ranks.new.ranks queue.new [] }
    ensures none { IfOk result (λ o. IfNone o ((U : Atoms) → IsUnfoundedLoop setting.now.compiled.now setting.now.values.now U → ⊥)) }
    ensures some { IfOk result (λ o. IfSome o (λ f. IsFound setting.now.compiled.now setting.now.values.now f.atoms.items f.atom)) }
{
    let _program = setting.compiled.program();
    let _vars = setting.compiled.vars();
    while let Some(place) = queue.pop() {
        let found = look(
            setting,
            place + 1,
            sources,
            ranks,
            queue,
            loose,
            waiting,
            joined,
        )?;
        if let Some(found) = found {
            return Ok(Some(found));
        }
    }
    Ok(None)
}

/// The loop nogood of an unfounded set that was found.
pub fn nogood_of(setting: &Setting, found: &Unfounded) -> Result<Nogood, AllocError>
    requires found { IsFound setting.now.compiled.now setting.now.values.now found.now.atoms.items found.now.atom }
    requires values { length setting.now.values.now ≡ var_count setting.now.compiled.now + 1 }
    ensures { IfOk result (IsLoopNogood setting.now.compiled.now setting.now.values.now found.now.atoms.items found.now.atom) }
{
    let atoms = found.atoms.as_slice();
    let nogood = loop_nogood(
        setting.alloc,
        setting.compiled,
        atoms,
        found.atom,
        setting.values,
    )?;
    match nogood {
        Some(nogood) => Ok(nogood),
        None => unreachable!(),
    }
}
