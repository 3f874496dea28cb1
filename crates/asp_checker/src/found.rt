//! Sets that are found. Each is known from then on, on credit: whether it is an answer is looked at where it is listed, and that it is
//! listed where the text ends.
ghost use Rattle.std.specs.Prelude.{◌≡◌, ◌++◌, ◌∷◌, [], true, false, IfOk, OnOk, MatchOption};
ghost use Rattle.asp_model.specs.Costs.{betters};
ghost use Rattle.asp_proof.specs.declared.proof.Line.{Line};
ghost use Rattle.asp_checker.specs.Lines.{avoided, bound_by, IsCheaper, MayBeFound};
ghost use Rattle.asp_checker.specs.Blocks.{HasLevels, cost_of_bound};
ghost use Rattle.asp_checker.specs.Judging.{HasFoundFault, IsReady, IsLineTaken};

use crate::bounds::Bound;
use crate::judge::{Why, costs_alike, following};
use crate::lines::are_atoms;
use crate::propagator::{Propagator, Read};
use crate::root::learn_bound;
use crate::set_list::{SetList, SetSlice};
use asp_model::cost::{Cost, cost_of};
use asp_model::interp::Interp;
use asp_proof::proof::Sought;
use asp_vars::compiled::Compiled;
use std::alloc::{AllocError, Global};
use std::cmp::Ordering;

// Whether the one cost betters the other.
fn betters(cost: &Cost, other: &Cost) -> bool
    ensures { result ≡ betters cost.now other.now }
{
    match cost.cmp(other) {
        Ordering::Less => true,
        Ordering::Equal => false,
        Ordering::Greater => false,
    }
}

// Whether the set costs less than the last of those before it.
fn betters_last(
    alloc: Global,
    compiled: &Compiled,
    before: &SetList,
    set: &Interp,
) -> Result<bool, AllocError>
    ensures yes { IfOk result (λ yes. yes ≡ true → IsCheaper compiled.now Sought.Best before.now.sets set.now) }
    ensures no { IfOk result (λ yes. yes ≡ false → IsCheaper compiled.now Sought.Best before.now.sets set.now → ⊥) }
{
    if before.len() == 0 {
        return Ok(true);
    }
    let last = before.last();
    let program = compiled.program();
    let cost = cost_of(alloc, program, set)?;
    let least = cost_of(alloc, program, last)?;
    Ok(betters(&cost, &least))
}

// The same, where one answer that none betters is sought.
fn is_cheaper(
    alloc: Global,
    compiled: &Compiled,
    sought: Sought,
    before: &SetList,
    set: &Interp,
) -> Result<bool, AllocError>
    ensures yes { IfOk result (λ yes. yes ≡ true → IsCheaper compiled.now sought before.now.sets set.now) }
    ensures no { IfOk result (λ yes. yes ≡ false → IsCheaper compiled.now sought before.now.sets set.now → ⊥) }
{
    match sought {
        Sought::All | Sought::Optima => Ok(true),
        Sought::Best => betters_last(alloc, compiled, before, set),
    }
}

// What is wrong with a set that is found behind others.
fn fault_of_found(
    alloc: Global,
    compiled: &Compiled,
    sought: Sought,
    before: &SetList,
    set: &Interp,
) -> Result<Option<Why>, AllocError>
    ensures { IfOk result (λ o. MatchOption o (MayBeFound compiled.now sought before.now.sets set.now) (HasFoundFault compiled.now sought before.now.sets set.now)) }
{
    let _set = set.as_slice();
    if !are_atoms(compiled, set) {
        return Ok(Some(Why::Literal));
    }
    let cheaper = is_cheaper(alloc, compiled, sought, before, set)?;
    if !cheaper {
        return Ok(Some(Why::Order));
    }
    let alike = costs_alike(alloc, compiled, sought, before, set)?;
    if !alike {
        return Ok(Some(Why::Cost));
    }
    Ok(None)
}

// The bound where all optima are sought, now that a set was found behind others: that of the first one.
fn tighten_first(
    alloc: Global,
    compiled: &Compiled,
    before: &SetList,
    set: &Interp,
    bound: &mut Option<Bound>,
) -> Result<(), AllocError>
    requires levels { HasLevels compiled.now bound.old }
    requires cost { cost_of_bound bound.old ≡ bound_by compiled.now Sought.Optima before.now.sets }
    ensures levels { OnOk result (HasLevels compiled.now bound.new) }
    ensures cost { OnOk result (cost_of_bound bound.new ≡ bound_by compiled.now Sought.Optima (before.now.sets ++ set.now ∷ [])) }
{
    if before.len() > 0 {
        return Ok(());
    }
    *bound = Bound::above(alloc, compiled, set)?;
    Ok(())
}

// The bound, now that a set was found behind others.
fn tighten(
    alloc: Global,
    compiled: &Compiled,
    sought: Sought,
    before: &SetList,
    set: &Interp,
    bound: &mut Option<Bound>,
) -> Result<(), AllocError>
    requires levels { HasLevels compiled.now bound.old }
    requires cost { cost_of_bound bound.old ≡ bound_by compiled.now sought before.now.sets }
    ensures levels { OnOk result (HasLevels compiled.now bound.new) }
    ensures cost { OnOk result (cost_of_bound bound.new ≡ bound_by compiled.now sought (before.now.sets ++ set.now ∷ [])) }
{
    match sought {
        Sought::All => Ok(()),
        Sought::Best => {
            let least = Bound::of(alloc, compiled, set)?;
            *bound = Some(least);
            Ok(())
        }
        Sought::Optima => tighten_first(alloc, compiled, before, set, bound),
    }
}

/// The sets that are to be avoided: those found, but not those that are to be bettered.
pub(crate) fn avoided<'a>(sought: Sought, found: &'a SetList) -> SetSlice<'a>
    ensures { result ≡ avoided sought found.now.sets }
{
    match sought {
        Sought::All | Sought::Optima => SetSlice::all(found),
        Sought::Best => SetSlice::none(),
    }
}

// A set was found that may be. It is known to the later lines.
fn keep_found(
    alloc: Global,
    compiled: &Compiled,
    sought: Sought,
    known: &mut Propagator,
    set: Interp,
) -> Result<(), AllocError>
    requires ready { IsReady compiled.now sought known.old }
    requires may { MayBeFound compiled.now sought known.old.found.sets set }
    ensures ready { OnOk result (IsReady compiled.now sought known.new) }
    ensures found { OnOk result (known.new.found.sets ≡ known.old.found.sets ++ set ∷ []) }
    ensures rows { OnOk result (known.new.rows ≡ known.old.rows) }
{
    tighten(
        alloc,
        compiled,
        sought,
        &known.found,
        &set,
        &mut known.bound,
    )?;
    known.watches.note(&set, known.found.len())?;
    known.found.push(alloc, set)?;
    let listed = avoided(sought, &known.found);
    let rows = known.rows.kept.as_slice();
    learn_bound(
        alloc,
        compiled,
        &listed,
        rows,
        &known.bound,
        &mut known.watches,
        &mut known.values,
    )?;
    Ok(())
}

/// Judges the set that is found by a change of the one before it. Where it may be found, it is known to the later lines.
pub(crate) fn take_found(
    compiled: &Compiled,
    sought: Sought,
    known: &mut Propagator,
    change: &Interp,
) -> Result<Read, AllocError>
    requires { IsReady compiled.now sought known.old }
    ensures { IfOk result (IsLineTaken compiled.now sought known.old known.new (Line.Found change.now)) }
{
    let alloc = known.watches.allocator();
    let set = following(alloc, &known.found, change)?;
    let fault = fault_of_found(alloc, compiled, sought, &known.found, &set)?;
    match fault {
        Some(why) => Ok(Read::Wrong(why)),
        None => {
            keep_found(alloc, compiled, sought, known, set)?;
            Ok(Read::Right(false))
        }
    }
}
