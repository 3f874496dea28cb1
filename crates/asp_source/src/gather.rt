//! The candidates for an unfounded set that atoms without a source bring with them.
//!
//! What rests on a candidate loses its source: else an atom could get a source that rests on the atom itself. It gets
//! another if one founds it from lower atoms alone, and is a candidate too if none does. An atom without source on which a
//! candidate could rest is asked the same, so that all of them are looked at together; that only saves looks.
ghost use Rattle.std.specs.Prelude.{◌≡◌, ℕ, ◌+◌, ◌-◌, ◌<◌, ◌≤◌, ◌^◌, true, false, length, slice_index};
ghost use Rattle.asp_model.specs.Models.{atoms_of};
ghost use Rattle.asp_vars.specs.Numbering.{bodies_of};
ghost use Rattle.asp_vars.specs.Tabled.{IsAtomVar};
ghost use Rattle.asp_source.specs.Marks.{is_marked};
ghost use Rattle.asp_source.specs.Gathering.{IsSetting, IsGathering, Gathers, Steps, Admits, IsReseated, IsReleased, AreReleased, join_loose, join_places};

use crate::bodies::occurrences;
use crate::founding::find_source;
use crate::inside::Above;
use crate::pointers::lose;
use crate::queue::Queue;
use crate::ranks::Ranks;
use asp_scc::components::Components;
use asp_vars::assign::Assign;
use asp_vars::compiled::Compiled;
use asp_vars::lit::{Lit, Var};

/// A component of the program, where candidates are gathered.
#[derive(Clone, Copy)]
pub struct Region<'a> {
    /// The program.
    pub compiled: &'a Compiled,
    /// Its components.
    pub components: &'a Components,
    /// The values told.
    pub values: &'a Assign,
    /// The ranks of its atoms.
    pub ranks: &'a Ranks,
    /// The component's number.
    pub component: u32,
}

/// An atom without source joins the candidates and waits, if it isn't false.
pub fn join(values: &Assign, loose: &mut [bool], waiting: &mut Queue, joined: &mut Queue, var: Var)
    requires var { 0 < var }
    requires values { var < length values.now }
    requires few { length values.now ≤ 2 ^ 31 }
    requires loose { var < length loose.old }
    requires waiting { length waiting.old + 1 ≡ length loose.old }
    requires joined { length joined.old + 1 ≡ length loose.old }
    ensures loose { loose.new ≡ join_loose values.now loose.old var }
    ensures waiting { waiting.new ≡ join_places values.now loose.old waiting.old var }
    ensures joined { joined.new ≡ join_places values.now loose.old joined.old var }
{
    if values.holds(Lit::new(var, false)) || loose[var as usize] {
        return;
    }
    loose[var as usize] = true;
    waiting.add(var - 1);
    joined.add(var - 1);
}

// An atom of the component gets a source again, if a body founds it from outside of the candidates and of the atoms of
// its rank and above. What rests on the atom needn't be looked at then.
fn reseat(region: &Region, sources: &mut [Var], loose: &[bool], var: Var) -> bool
    requires setting { IsSetting region.now.compiled.now region.now.components.now region.now.values.now }
    requires ranks { length region.now.ranks.now.ranks ≡ length (atoms_of region.now.compiled.now) + 1 }
    requires sources { length sources.old ≡ length (atoms_of region.now.compiled.now) + 1 }
    requires loose { length loose.now ≡ length (atoms_of region.now.compiled.now) + 1 }
    requires var { IsAtomVar region.now.compiled.now var }
    ensures same { result ≡ false → sources.new ≡ sources.old }
    ensures seated { result ≡ true → IsReseated region.now.compiled.now region.now.components.now region.now.values.now region.now.component region.now.ranks.now.ranks loose.now var sources.old sources.new }
{
    let _vars = region.compiled.vars();
    let above = Above {
        loose,
        components: region.components,
        ranks: region.ranks,
        component: region.component,
        rank: region.ranks.of(var),
    };
    let Some(body) = find_source(region.compiled, region.values, &above, var) else {
        return false;
    };
    sources[var as usize] = body;
    true
}

/// An atom of the component without source gets one again if it can, and joins the candidates if not, unless it is false.
pub fn admit(
    region: &Region,
    sources: &mut [Var],
    loose: &mut [bool],
    waiting: &mut Queue,
    joined: &mut Queue,
    busy: Var,
    var: Var,
)
    requires gathering { IsGathering region.now.compiled.now region.now.components.now region.now.values.now region.now.component region.now.ranks.now.ranks busy sources.old loose.old waiting.old joined.old }
    requires var { IsAtomVar region.now.compiled.now var }
    requires at { slice_index region.now.components.now.numbers var ≡ region.now.component }
    requires none { slice_index sources.old var ≡ 0 }
    ensures { Admits region.now.compiled.now region.now.components.now region.now.values.now region.now.component region.now.ranks.now.ranks busy var sources.old loose.old waiting.old sources.new loose.new waiting.new joined.new }
{
    let _program = region.compiled.program();
    let _vars = region.compiled.vars();
    let _ = busy;
    if region.values.holds(Lit::new(var, false)) {
        return;
    }
    if loose[var as usize] {
        return;
    }
    if reseat(region, sources, loose, var) {
        return;
    }
    join(region.values, loose, waiting, joined, var);
}

// A head of the component that has the body as its source loses it, unless it founds the head still.
fn release(
    region: &Region,
    sources: &mut [Var],
    loose: &mut [bool],
    waiting: &mut Queue,
    joined: &mut Queue,
    busy: Var,
    body: Var,
    var: Var,
)
    requires gathering { IsGathering region.now.compiled.now region.now.components.now region.now.values.now region.now.component region.now.ranks.now.ranks busy sources.old loose.old waiting.old joined.old }
    requires var { IsAtomVar region.now.compiled.now var }
    requires body { 0 < body }
    ensures steps { Steps region.now.compiled.now region.now.components.now region.now.values.now region.now.component region.now.ranks.now.ranks busy sources.old loose.old waiting.old sources.new loose.new waiting.new joined.new }
    ensures released { IsReleased region.now.compiled.now region.now.components.now region.now.values.now region.now.component region.now.ranks.now.ranks sources.new loose.new waiting.new body var }
{
    let _vars = region.compiled.vars();
    if region.components.of(var) != region.component {
        return;
    }
    if !lose(sources, body, var) {
        return;
    }
    admit(region, sources, loose, waiting, joined, busy, var);
}

fn release_heads(
    region: &Region,
    sources: &mut [Var],
    loose: &mut [bool],
    waiting: &mut Queue,
    joined: &mut Queue,
    busy: Var,
    body: usize,
)
    requires gathering { IsGathering region.now.compiled.now region.now.components.now region.now.values.now region.now.component region.now.ranks.now.ranks busy sources.old loose.old waiting.old joined.old }
    requires body { body < length (bodies_of region.now.compiled.now) }
    ensures steps { Steps region.now.compiled.now region.now.components.now region.now.values.now region.now.component region.now.ranks.now.ranks busy sources.old loose.old waiting.old sources.new loose.new waiting.new joined.new }
    ensures released { AreReleased region.now.compiled.now region.now.components.now region.now.values.now region.now.component region.now.ranks.now.ranks sources.new loose.new waiting.new body }
{
    let number = region.compiled.body_number(body);
    for var in region.compiled.heads(body) {
        release(region, sources, loose, waiting, joined, busy, number, *var);
    }
}

// Atoms of the component whose source rests on this one get another, or join.
fn release_from(
    region: &Region,
    sources: &mut [Var],
    loose: &mut [bool],
    waiting: &mut Queue,
    joined: &mut Queue,
    var: Var,
)
    requires gathering { IsGathering region.now.compiled.now region.now.components.now region.now.values.now region.now.component region.now.ranks.now.ranks var sources.old loose.old waiting.old joined.old }
    requires var { IsAtomVar region.now.compiled.now var }
    ensures gathering { IsGathering region.now.compiled.now region.now.components.now region.now.values.now region.now.component region.now.ranks.now.ranks 0 sources.new loose.new waiting.new joined.new }
    ensures gathers { Gathers region.now.values.now sources.old loose.old waiting.old sources.new loose.new waiting.new }
{
    let _program = region.compiled.program();
    let _vars = region.compiled.vars();
    for occurrence in occurrences(region.compiled, Lit::new(var, true)) {
        release_heads(
            region,
            sources,
            loose,
            waiting,
            joined,
            var,
            occurrence.body as usize,
        );
    }
}

fn draw(
    region: &Region,
    sources: &mut [Var],
    loose: &mut [bool],
    waiting: &mut Queue,
    joined: &mut Queue,
    lit: Lit,
)
    requires gathering { IsGathering region.now.compiled.now region.now.components.now region.now.values.now region.now.component region.now.ranks.now.ranks 0 sources.old loose.old waiting.old joined.old }
    requires atom { IsAtomVar region.now.compiled.now lit.var }
    ensures gathering { IsGathering region.now.compiled.now region.now.components.now region.now.values.now region.now.component region.now.ranks.now.ranks 0 sources.new loose.new waiting.new joined.new }
    ensures gathers { Gathers region.now.values.now sources.old loose.old waiting.old sources.new loose.new waiting.new }
{
    let _vars = region.compiled.vars();
    let var = lit.var();
    if !lit.truth() || region.components.of(var) != region.component {
        return;
    }
    if sources[var as usize] != 0 {
        return;
    }
    admit(region, sources, loose, waiting, joined, 0, var);
}

fn draw_body(
    region: &Region,
    sources: &mut [Var],
    loose: &mut [bool],
    waiting: &mut Queue,
    joined: &mut Queue,
    body: usize,
)
    requires gathering { IsGathering region.now.compiled.now region.now.components.now region.now.values.now region.now.component region.now.ranks.now.ranks 0 sources.old loose.old waiting.old joined.old }
    requires body { body < length (bodies_of region.now.compiled.now) }
    ensures gathering { IsGathering region.now.compiled.now region.now.components.now region.now.values.now region.now.component region.now.ranks.now.ranks 0 sources.new loose.new waiting.new joined.new }
    ensures gathers { Gathers region.now.values.now sources.old loose.old waiting.old sources.new loose.new waiting.new }
{
    if region
        .values
        .holds(region.compiled.body_lit(body).complement())
    {
        return;
    }
    for lit in region.compiled.literals(body) {
        draw(region, sources, loose, waiting, joined, *lit);
    }
}

// Atoms of the component without source, on which this one could rest, get one again, or join.
fn draw_from(
    region: &Region,
    sources: &mut [Var],
    loose: &mut [bool],
    waiting: &mut Queue,
    joined: &mut Queue,
    var: Var,
)
    requires gathering { IsGathering region.now.compiled.now region.now.components.now region.now.values.now region.now.component region.now.ranks.now.ranks 0 sources.old loose.old waiting.old joined.old }
    requires var { IsAtomVar region.now.compiled.now var }
    ensures gathering { IsGathering region.now.compiled.now region.now.components.now region.now.values.now region.now.component region.now.ranks.now.ranks 0 sources.new loose.new waiting.new joined.new }
    ensures gathers { Gathers region.now.values.now sources.old loose.old waiting.old sources.new loose.new waiting.new }
{
    let atoms = region.compiled.atom_count();
    for body in region.compiled.supports(var) {
        draw_body(
            region,
            sources,
            loose,
            waiting,
            joined,
            *body as usize - atoms - 1,
        );
    }
}

/// All candidates that the waiting ones bring with them.
pub fn gather(
    region: &Region,
    sources: &mut [Var],
    loose: &mut [bool],
    waiting: &mut Queue,
    joined: &mut Queue,
)
    requires gathering { IsGathering region.now.compiled.now region.now.components.now region.now.values.now region.now.component region.now.ranks.now.ranks 0 sources.old loose.old waiting.old joined.old }
    ensures gathering { IsGathering region.now.compiled.now region.now.components.now region.now.values.now region.now.component region.now.ranks.now.ranks 0 sources.new loose.new waiting.new joined.new }
    ensures gathers { Gathers region.now.values.now sources.old loose.old waiting.old sources.new loose.new waiting.new }
    ensures done { (k : ℕ) → is_marked waiting.new k ≡ false }
{
    let _program = region.compiled.program();
    let _vars = region.compiled.vars();
    while let Some(place) = waiting.pop() {
        release_from(region, sources, loose, waiting, joined, place + 1);
        draw_from(region, sources, loose, waiting, joined, place + 1);
    }
}
