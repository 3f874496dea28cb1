//! How a search for consequences leaves out what adds nothing.
//!
//! An answer adds something to those known where it shows an atom that none of them shows. So one nogood leaves out all that adds
//! nothing: none of these atoms is shown. When an answer is found it loses the literals of the atoms that this one shows.
ghost use Rattle.std.specs.Prelude.{◌≡◌, ◌<◌, IfOk, OnErr, OnOk, IsTrue, length, map, vec_capacity, vec_len};
ghost use Rattle.std.specs.List.{All};
ghost use Rattle.asp_model.specs.Models.{atoms_of};
ghost use Rattle.asp_model.specs.Sets.{has};
ghost use Rattle.asp_store.specs.Keeping.{IsAddedAt};
ghost use Rattle.asp_store.specs.declared.stored_nogood.Kind.TheVariants as kind;
ghost use Rattle.asp_search.specs.Blocking.{Covers};
ghost use Rattle.asp_search.specs.Invariants.{answers_known};
ghost use Rattle.asp_search_laws.specs.Keeping.{AreBlocking};
ghost use Rattle.asp_search_laws.specs.Steps.{covering_nogood, unshown_literal};

use crate::blocking::drop_all;
use asp_model::interp::Interp;
use asp_model::program::Atom;
use asp_model::results::Reasoning;
use asp_propagate::propagator::Propagator;
use asp_state::state::SearchState;
use asp_store::stored_nogood::Kind;
use asp_trail::reasons::NogoodId;
use asp_vars::compiled::Compiled;
use asp_vars::known::Known;
use asp_vars::lit::Lit;
use asp_vars::nogood::{Base, Lits, Nogood};
use asp_vars::snapshot::Snapshot;
use std::alloc::{AllocError, Global};

/// How many answers a search knows, or sets that stand for answers.
pub(crate) fn known_count(known: &Vec<Snapshot<Interp>>, seen: &Option<Known>) -> u64
    ensures { result ≡ length (answers_known known.now.items seen.now) }
{
    match seen {
        None => known.len() as u64,
        Some(seen) => seen.count(),
    }
}

/// That what can be shown of the atom isn't shown.
pub(crate) fn unshown_literal(compiled: &Compiled, reasoning: Reasoning, atom: Atom) -> Lit
    requires { IsTrue (has (atoms_of compiled.now) atom) }
    ensures { result ≡ unshown_literal reasoning compiled.now atom }
{
    let var = compiled.atom_var(atom);
    match reasoning {
        Reasoning::Brave => Lit::new(var, false),
        Reasoning::Cautious => Lit::new(var, true),
    }
}

// That none of the atoms is shown.
fn all_unshown(
    alloc: Global,
    compiled: &Compiled,
    reasoning: Reasoning,
    atoms: &[Atom],
) -> Result<Lits, AllocError>
    requires { All (λ a. IsTrue (has (atoms_of compiled.now) a)) atoms.now }
    ensures { IfOk result (λ lits. lits ≡ map (unshown_literal reasoning compiled.now) atoms.now) }
{
    let mut lits = Lits::new(alloc);
    for atom in atoms {
        lits.push(unshown_literal(compiled, reasoning, *atom))?;
    }
    Ok(lits)
}

// The nogood that leaves out all that shows nothing beside the answers.
fn covering(alloc: Global, compiled: &Compiled, known: &Known) -> Result<Nogood, AllocError>
    requires { known.now.program ≡ compiled.now }
    ensures { IfOk result (λ n. n ≡ covering_nogood known.now.reasoning compiled.now known.now.sets) }
{
    let lits = all_unshown(alloc, compiled, known.reasoning(), known.unshown())?;
    Ok(Nogood {
        lits,
        base: Base::Local,
    })
}

// Whichever of the atoms is decided next, the value is tried first that shows something.
fn prefer_shown<P: Propagator>(
    state: &mut SearchState<P>,
    compiled: &Compiled,
    reasoning: Reasoning,
    atoms: &[Atom],
)
    requires { All (λ a. IsTrue (has (atoms_of compiled.now) a)) atoms.now }
    ensures { state.new ≡ state.old }
{
    for atom in atoms {
        let unshown = unshown_literal(compiled, reasoning, *atom);
        state.prefer(unshown.var(), !unshown.truth());
    }
}

// Keeps the nogood that leaves out all that shows nothing beside these answers, and gives its number, for which there is room in the list.
fn keep_cover<P: Propagator>(
    alloc: Global,
    compiled: &Compiled,
    state: &mut SearchState<P>,
    blocking: &mut Vec<NogoodId>,
    known: &Known,
) -> Result<NogoodId, AllocError>
    requires program { known.now.program ≡ compiled.now }
    requires counted { compiled.now ≡ state.old.program }
    ensures blocking { blocking.new.items ≡ blocking.old.items }
    ensures room { IfOk result (λ id. vec_len blocking.new < vec_capacity blocking.new) }
    ensures same { state.new ≡ record state.old { slots = state.new.slots } }
    ensures ok { IfOk result (λ id. IsAddedAt state.old.slots state.new.slots id (covering_nogood known.now.reasoning compiled.now known.now.sets) kind.Forever) }
    ensures err { OnErr result (state.new ≡ state.old) }
{
    blocking.reserve(1)?;
    let nogood = covering(alloc, compiled, known)?;
    state.keep(nogood, Kind::Forever, 0)
}

/// Keeps the nogood that leaves out all that shows nothing beside these answers, in the place of those in the list that are no
/// reasons.
pub(crate) fn renew<P: Propagator>(
    alloc: Global,
    compiled: &Compiled,
    state: &mut SearchState<P>,
    blocking: &mut Vec<NogoodId>,
    known: &Known,
) -> Result<(), AllocError>
    requires program { known.now.program ≡ compiled.now }
    requires counted { compiled.now ≡ state.old.program }
    requires blocking { AreBlocking state.old.slots blocking.old.items }
    ensures same { state.new ≡ record state.old { slots = state.new.slots } }
    ensures ok { OnOk result (Covers (covering_nogood known.now.reasoning compiled.now known.now.sets) state.old state.new blocking.new.items) }
    ensures err { OnErr result ((state.new ≡ state.old) × (blocking.new.items ≡ blocking.old.items)) }
{
    let id = keep_cover(alloc, compiled, state, blocking, known)?;
    drop_all(state, blocking, &[]);
    blocking.push_reserved(id);
    Ok(())
}

/// The same where an answer was found, which that nogood leaves out: takes all decisions back, and goes
/// where atoms are shown that it leaves open.
pub(crate) fn cover<P: Propagator>(
    alloc: Global,
    compiled: &Compiled,
    state: &mut SearchState<P>,
    blocking: &mut Vec<NogoodId>,
    known: &Known,
) -> Result<(), AllocError>
    requires program { known.now.program ≡ compiled.now }
    requires counted { compiled.now ≡ state.old.program }
    requires blocking { AreBlocking state.old.slots blocking.old.items }
    ensures ok { OnOk result (Covers (covering_nogood known.now.reasoning compiled.now known.now.sets) state.old state.new blocking.new.items) }
    ensures err { OnErr result ((state.new ≡ state.old) × (blocking.new.items ≡ blocking.old.items)) }
{
    let id = keep_cover(alloc, compiled, state, blocking, known)?;
    state.undo_to(0);
    drop_all(state, blocking, &[]);
    blocking.push_reserved(id);
    prefer_shown(state, compiled, known.reasoning(), known.unshown());
    Ok(())
}
