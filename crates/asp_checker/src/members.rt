//! Whether a set is stable, where many sets are judged one after another.
//!
//! The atoms outside of the set are false, and those of it get the value true when a body that holds derives them, as
//! in asp_member. But the bodies are looked at in an order that served for the sets before, a body is looked at only
//! where one of its heads has no value, and a rule's body only where its head isn't as it must be. Where the order
//! leaves an atom without a value, asp_member decides.
ghost use Rattle.std.specs.Prelude.{◌≡◌, ◌+◌, ◌<◌, true, IfOk, OnOk, length};
ghost use Rattle.std.specs.List.{list_all};
ghost use Rattle.asp_model.specs.Sets.{has};
ghost use Rattle.asp_model.specs.Views.{head_seen};
ghost use Rattle.asp_model.specs.Models.{atoms_of, is_stable, rules_in_force};
ghost use Rattle.asp_vars.specs.Numbering.{nth_rule, var_count};
ghost use Rattle.asp_found.specs.Verdicts.{is_kept};
ghost use Rattle.asp_member.specs.Founding.{AreFounded, Founds, keeps};

use asp_member::stable::{derive_all, have_values, holds, is_stable, is_whole, outside};
use asp_model::interp::Interp;
use asp_model::program::Atom;
use asp_model::view::HeadView;
use asp_vars::assign::Assign;
use asp_vars::compiled::Compiled;
use asp_vars::lit::Lit;
use std::alloc::{AllocError, Global};

// How often the bodies are looked at, at most.
const MOST_PASSES: u32 = 64;

/// In which order the bodies are looked at. This is advice alone.
#[derive(Drop)]
pub(crate) struct Order {
    // All bodies.
    bodies: Vec<usize>,
    // Those that derived an atom of the last set, in this order.
    fired: Vec<usize>,
}

impl Order {
    /// The order in which the program has them.
    pub(crate) fn new(alloc: Global, compiled: &Compiled) -> Result<Order, AllocError> {
        let mut bodies = Vec::new(alloc);
        for body in 0..compiled.body_count() {
            bodies.push(body)?;
        }
        Ok(Order {
            bodies,
            fired: Vec::new(alloc),
        })
    }

    // Puts those to the front that derived an atom.
    fn renew(&mut self, alloc: Global) -> Result<(), AllocError> {
        let mut is_first = vec![in alloc; false; self.bodies.len()]?;
        for body in &self.fired {
            if let Some(mark) = is_first.get_mut(*body) {
                *mark = true;
            }
        }
        for body in &self.bodies {
            if !is_first.get(*body).copied().unwrap_or(true) {
                self.fired.push(*body)?;
            }
        }
        self.bodies.clear();
        for body in &self.fired {
            self.bodies.push(*body)?;
        }
        Ok(())
    }
}

// ---- looks

// Derives the heads of a body, if it holds. Says whether one of them had no value.
fn look(compiled: &Compiled, values: &mut Assign, body: usize) -> bool
    requires { length values.old ≡ var_count compiled.now + 1 }
    ensures { Founds compiled.now values.old values.new }
{
    let _program = compiled.program();
    if body >= compiled.body_count() {
        return false;
    }
    if have_values(values, compiled.heads(body)) {
        return false;
    }
    let held = holds(compiled, values, body);
    if !held {
        return false;
    }
    derive_all(values, compiled.heads(body));
    true
}

// Looks at the bodies one after another, and adds those that derived an atom.
fn look_at_all(
    compiled: &Compiled,
    values: &mut Assign,
    bodies: &[usize],
    fired: &mut Vec<usize>,
) -> Result<(), AllocError>
    requires { length values.old ≡ var_count compiled.now + 1 }
    ensures { OnOk result (Founds compiled.now values.old values.new) }
{
    for body in bodies {
        let derived = look(compiled, values, *body);
        if derived {
            fired.push(*body)?;
        }
    }
    Ok(())
}

// Derives what it can, by looks in this order, again and again. Where one pass isn't enough, the order is renewed.
fn derive_by(
    alloc: Global,
    compiled: &Compiled,
    values: &mut Assign,
    order: &mut Order,
) -> Result<(), AllocError>
    requires { length values.old ≡ var_count compiled.now + 1 }
    ensures { OnOk result (Founds compiled.now values.old values.new) }
{
    order.fired.clear();
    for pass in 0..MOST_PASSES {
        let before = order.fired.len();
        look_at_all(compiled, values, order.bodies.as_slice(), &mut order.fired)?;
        let is_idle = order.fired.len() == before;
        if is_idle || is_whole(compiled, values) {
            if pass > 0 {
                order.renew(alloc)?;
            }
            return Ok(());
        }
    }
    Ok(())
}

// ---- the end

// Whether the atom is in the set. Mostly an atom's variable has its number; then its value says that.
fn is_in(compiled: &Compiled, set: &Interp, values: &Assign, atom: Atom) -> bool
    requires size { length values.now ≡ var_count compiled.now + 1 }
    requires founded { AreFounded compiled.now set.now values.now }
    ensures { result ≡ has set.now atom }
{
    let atoms = compiled.atoms().as_slice();
    let number = atom as usize;
    if number == 0 || number > compiled.atom_count() {
        return set.has(atom);
    }
    if atoms[number - 1] != atom {
        return set.has(atom);
    }
    !values.holds(Lit::new(atom, false))
}

fn is_kept(compiled: &Compiled, set: &Interp, values: &Assign, head: HeadView<'_>) -> bool
    requires size { length values.now ≡ var_count compiled.now + 1 }
    requires founded { AreFounded compiled.now set.now values.now }
    ensures { result ≡ is_kept set.now (head_seen head.entry) }
{
    match head {
        HeadView::One(atom) => is_in(compiled, set, values, atom),
        HeadView::Choice(_) => true,
        HeadView::Never => false,
    }
}

// Whether the rule's head is as it must be, or its body doesn't hold.
fn keeps(compiled: &Compiled, set: &Interp, values: &Assign, rule: usize) -> bool
    requires rule { rule < length (rules_in_force compiled.now) }
    requires size { length values.now ≡ var_count compiled.now + 1 }
    requires founded { AreFounded compiled.now set.now values.now }
    ensures { result ≡ keeps compiled.now set.now values.now (nth_rule compiled.now rule) }
{
    if is_kept(compiled, set, values, compiled.rule(rule).head) {
        return true;
    }
    let held = holds(compiled, values, compiled.rule_body(rule));
    !held
}

fn are_kept(compiled: &Compiled, set: &Interp, values: &Assign) -> bool
    requires size { length values.now ≡ var_count compiled.now + 1 }
    requires founded { AreFounded compiled.now set.now values.now }
    ensures { result ≡ list_all (keeps compiled.now set.now values.now) (rules_in_force compiled.now) }
{
    for rule in 0..compiled.rule_count() {
        if !keeps(compiled, set, values, rule) {
            return false;
        }
    }
    true
}

/// Whether a set of the program's atoms is stable.
pub(crate) fn is_stable_by(
    alloc: Global,
    compiled: &Compiled,
    set: &Interp,
    order: &mut Order,
) -> Result<bool, AllocError>
    requires { list_all (has (atoms_of compiled.now)) set.now ≡ true }
    ensures { IfOk result (λ stable. stable ≡ is_stable compiled.now set.now) }
{
    let _program = compiled.program();
    let _atoms = set.as_slice();
    let mut values = outside(alloc, compiled, set)?;
    derive_by(alloc, compiled, &mut values, order)?;
    if is_whole(compiled, &values) {
        return Ok(are_kept(compiled, set, &values));
    }
    let stable = is_stable(alloc, compiled, set)?;
    Ok(stable)
}
