//! What is kept at the start, and where all begins anew.
ghost use Rattle.std.specs.Prelude.{◌≡◌, ◌+◌, ◌<◌, ◌^◌, [], true, false, IfOk, length, slice_index, slice_index_or, slice_set, if◌then◌else◌};
ghost use Rattle.asp_model.specs.Models.{atoms_of};
ghost use Rattle.asp_vars.specs.Numbering.{bodies_of};
ghost use Rattle.asp_scc.specs.Components.{AreComponents};
ghost use Rattle.asp_source.specs.Pointers.{AreMarked, ArePointers};
ghost use Rattle.asp_source.specs.Pointers.{AreNormal};
ghost use Rattle.asp_source.specs.Starts.{IsBare, IsBlank};

use crate::queue::Queue;
use crate::ranks::Ranks;
use asp_scc::components::Components;
use asp_vars::assign::Assign;
use asp_vars::compiled::Compiled;
use asp_vars::lit::Var;
use std::alloc::{AllocError, Global};

/// Whether some body is a weight body.
pub fn has_weights(compiled: &Compiled) -> bool
    ensures { result ≡ false → AreNormal compiled.now (length (bodies_of compiled.now)) }
{
    for form in 0..compiled.body_count() {
        if compiled.bound(form).is_some() {
            return true;
        }
    }
    false
}

// The atom, unless its component is trivial.
fn queue_atom(components: &Components, queue: &mut Queue, atom: usize)
    requires few { atom + 1 < 2 ^ 31 }
    requires atom { atom + 1 < length components.now.numbers }
    requires trivial { slice_index components.now.numbers (atom + 1) < length components.now.trivial }
    requires queue { atom < length queue.old }
    ensures { queue.new ≡ (if slice_index_or components.now.trivial (slice_index components.now.numbers (atom + 1)) false then queue.old else slice_set queue.old atom true) }
{
    let component = components.of(atom as u32 + 1);
    if !components.trivial(component) {
        queue.add(atom as u32);
    }
}

// All atoms but those of trivial components are queued.
fn queue_all(compiled: &Compiled, components: &Components, queue: &mut Queue)
    requires components { AreComponents compiled.now components.now }
    requires size { length queue.old ≡ length (atoms_of compiled.now) }
    ensures size { length queue.new ≡ length (atoms_of compiled.now) }
    ensures queued { AreMarked components.now (length (atoms_of compiled.now)) queue.new }
{
    for atom in 0..compiled.atom_count() {
        queue_atom(components, queue, atom);
    }
}

/// All atoms but those of trivial components.
pub fn queue_of(
    alloc: Global,
    compiled: &Compiled,
    components: &Components,
) -> Result<Queue, AllocError>
    requires { AreComponents compiled.now components.now }
    ensures size { IfOk result (λ q. length q ≡ length (atoms_of compiled.now)) }
    ensures queued { IfOk result (AreMarked components.now (length (atoms_of compiled.now))) }
{
    let mut queue = Queue::new(alloc, compiled.atom_count())?;
    queue_all(compiled, components, &mut queue);
    Ok(queue)
}

/// Pointers of a program of which nothing is known.
#[derive(Drop)]
pub struct Bare {
    /// By atom, that it has no source. One more than the atoms.
    pub sources: Vec<Var>,
    /// The same rank for each.
    pub ranks: Ranks,
    /// All atoms but those of trivial components.
    pub queue: Queue,
}

/// No atom has a source, and all are queued that need one.
pub fn bare_pointers(
    alloc: Global,
    compiled: &Compiled,
    components: &Components,
) -> Result<Bare, AllocError>
    requires { AreComponents compiled.now components.now }
    ensures { IfOk result (λ b. IsBare compiled.now components.now b.sources.items b.ranks b.queue) }
{
    let sources = vec![in alloc; 0 as u32; compiled.atom_count() + 1]?;
    let ranks = Ranks::new(alloc, compiled.atom_count() + 1)?;
    let queue = queue_of(alloc, compiled, components)?;
    Ok(Bare {
        sources,
        ranks,
        queue,
    })
}

/// What a look at some atoms needs.
#[derive(Drop)]
pub struct Blank {
    /// By variable, that the atom is no candidate.
    pub loose: Vec<bool>,
    /// No candidate that is still to be gone over.
    pub waiting: Queue,
    /// No atom that came to be a candidate.
    pub joined: Queue,
}

/// No atom is a candidate.
pub fn blank_marks(alloc: Global, compiled: &Compiled) -> Result<Blank, AllocError>
    ensures { IfOk result (λ b. IsBlank compiled.now b.loose.items b.waiting b.joined) }
{
    let loose = vec![in alloc; false; compiled.atom_count() + 1]?;
    let waiting = Queue::new(alloc, compiled.atom_count())?;
    let joined = Queue::new(alloc, compiled.atom_count())?;
    Ok(Blank {
        loose,
        waiting,
        joined,
    })
}

/// Where ranks may soon run out all atoms lose their sources, and are queued.
pub fn refresh(
    compiled: &Compiled,
    components: &Components,
    values: &Assign,
    sources: &mut [Var],
    ranks: &mut Ranks,
    queue: &mut Queue,
)
    requires components { AreComponents compiled.now components.now }
    requires pointers { ArePointers compiled.now components.now values.now sources.old ranks.old.ranks queue.old [] }
    ensures pointers { ArePointers compiled.now components.now values.now sources.new ranks.new.ranks queue.new [] }
    ensures time { ranks.new.clock < 2 ^ 63 }
{
    let _ = values;
    if !ranks.is_full() {
        return;
    }
    sources.fill(0);
    ranks.renew();
    queue_all(compiled, components, queue);
}
