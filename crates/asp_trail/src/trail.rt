//! The trail: literals in the order in which they came to hold.
ghost use Rattle.std.specs.Prelude.{◌≡◌, ℕ, false, ◌<◌, ◌≤◌, ◌⊎◌, ◌+◌, ◌-◌, ◌++◌, ◌∷◌, [], Some, None, IfOk, OnOk, IsSome, IsTrue, length, min, slice_index_or, take};
ghost use Rattle.asp_vars.specs.Literals.{value_of, holds_in};
ghost use Rattle.asp_trail.specs.Entries.{assignment, level, level_in, reason_in, cut, first_decision};
ghost use Rattle.asp_trail.specs.Trails.{IsVar, IsOrdered};
ghost use Rattle.std.specs.List.{All};
ghost use Rattle.asp_trail.specs.declared.trail.Entry.{Entry};

use crate::reasons::NogoodId;
use asp_vars::assign::Assign;
use asp_vars::lit::{Lit, Var};
use std::alloc::{AllocError, Global};
use std::marker::Model;

/// A literal that holds, its level, and the nogood that implied it, if one did.
#[derive(Clone, Copy)]
pub struct Entry {
    /// The literal that holds.
    pub lit: Lit,
    /// The decision level: how many decisions stand on the trail up to here; 0 for what holds under no decision.
    pub level: u32,
    /// The number of the nogood that implied the literal; none for a decision and for what is assumed.
    pub reason: Option<NogoodId>,
}

/// The literals that hold, the oldest first. A flat array has the value of each variable.
#[derive(Drop)]
pub struct Trail {
    /// The variables are 1 to this number.
    vars: u32,
    /// The literals that hold, in the order in which they came to hold.
    entries: Vec<Entry>,
    /// The value of each variable: that of its literal in `entries`, or none.
    values: Assign,
    /// For each variable the place of its literal in `entries`; of one without a value anything.
    places: Vec<u32>,
    /// For each variable the level of its literal; of one without a value anything.
    levels: Vec<u32>,
    /// So many entries, the oldest, were followed by the propagation of nogoods: at most all.
    seen: usize,
}

impl Model for Trail {
    ghost use Rattle.std.specs.Vec.{vec_capacity};
    ghost use Rattle.asp_trail.specs.Trails.{Trailed, IsTrail};

    ghost Value = { Trailed };

    ghost view = { λ t. record { vars = t.vars; entries = t.entries.items; seen = t.seen; room = vec_capacity t.entries } };

    ghost invariant = { λ t. IsTrail t.vars t.entries.items t.values t.places.items t.levels.items t.seen };
}

impl Trail {
    /// A trail with no entries, over the variables 1 to `vars`.
    pub fn new(alloc: Global, vars: u32) -> Result<Trail, AllocError>
        ensures vars { IfOk result (λ t. t.vars ≡ vars) }
        ensures entries { IfOk result (λ t. t.entries ≡ []) }
        ensures seen { IfOk result (λ t. t.seen ≡ 0) }
    {
        let values = Assign::new(alloc, vars)?;
        let places = vec![in alloc; 0; vars as usize + 1]?;
        let levels = vec![in alloc; 0; vars as usize + 1]?;
        Ok(Trail {
            vars,
            entries: Vec::new(alloc),
            values,
            places,
            levels,
            seen: 0,
        })
    }

    /// Makes room for n entries in all. After want of memory the trail is as before, but that it may have more room.
    pub fn reserve(&mut self, n: usize) -> Result<(), AllocError>
        ensures room { OnOk result (n ≤ self.new.room) }
        ensures kept { self.old.room ≤ self.new.room }
        ensures same { self.new ≡ record self.old { room = self.new.room } }
    {
        let len = self.entries.len();
        if n > len {
            self.entries.reserve(n - len)?;
        }
        Ok(())
    }

    /// The number of decisions that stand, which is the newest entry's level.
    pub fn level(&self) -> usize
        ensures level { result ≡ level self.now.entries }
        ensures top { All (λ e. e.level ≤ result) self.now.entries }
        ensures small { result ≤ length self.now.entries }
        ensures few { length self.now.entries ≤ self.now.vars + 1 }
    {
        match self.entries.last() {
            None => 0,
            Some(entry) => entry.level as usize,
        }
    }

    /// The number of entries.
    pub fn len(&self) -> usize
        ensures len { result ≡ length self.now.entries }
        ensures ordered { IsOrdered self.now.vars self.now.entries }
        ensures seen { self.now.seen ≤ result }
    {
        self.entries.len()
    }

    /// The literal of an entry, the oldest being at 0.
    pub fn lit(&self, i: usize) -> Lit
        requires { i < length self.now.entries }
        ensures lit { (d : Entry) → result ≡ (slice_index_or self.now.entries i d).lit }
        ensures var { IsVar self.now.vars result.var }
    {
        self.entries[i].lit
    }

    /// The level of an entry, the oldest being at 0.
    pub fn level_at(&self, i: usize) -> usize
        requires { i < length self.now.entries }
        ensures { (d : Entry) → result ≡ (slice_index_or self.now.entries i d).level }
    {
        self.entries[i].level as usize
    }

    /// The nogood that implied an entry, the oldest being at 0. None where it was assumed or decided.
    pub fn reason_at(&self, i: usize) -> Option<NogoodId>
        requires { i < length self.now.entries }
        ensures { (d : Entry) → result ≡ (slice_index_or self.now.entries i d).reason }
    {
        self.entries[i].reason
    }

    /// The variable's value, if an entry has it.
    pub fn value(&self, var: Var) -> Option<bool>
        requires { var ≤ self.now.vars }
        ensures value { result ≡ value_of (assignment self.now.vars self.now.entries) var }

        // Where a variable has no value there are fewer entries than variables.
        ensures rest { 0 < var → result ≡ None → length self.now.entries < self.now.vars }
    {
        self.values.value(var)
    }

    /// Whether each variable has a value.
    pub fn is_full(&self) -> bool
        ensures full { IsTrue result → (v : ℕ) → IsVar self.now.vars v → IsSome (value_of (assignment self.now.vars self.now.entries) v) }
        ensures open { result ≡ false → length self.now.entries < self.now.vars }
    {
        self.entries.as_slice().len() >= self.vars as usize
    }

    /// The values of all variables.
    pub fn assignment(&self) -> &Assign
        ensures values { result.now ≡ assignment self.now.vars self.now.entries }
        ensures len { length result.now ≡ self.now.vars + 1 }
    {
        &self.values
    }

    // The place of the next entry, that of a variable without a value.
    fn next_place(&self, var: Var) -> u32
        requires var { IsVar self.now.vars var }
        requires none { value_of (assignment self.now.vars self.now.entries) var ≡ None }
        ensures { result ≡ length self.now.entries }
    {
        let _vars = self.vars;
        let _value = self.value(var);
        self.entries.len() as u32
    }

    // The level that stands, as long as this variable has no value.
    fn level_before(&self, var: Var) -> u32
        requires var { IsVar self.now.vars var }
        requires none { value_of (assignment self.now.vars self.now.entries) var ≡ None }
        ensures level { result ≡ level self.now.entries }
        ensures few { result < self.now.vars }
    {
        let _vars = self.vars;
        let _value = self.value(var);
        self.level() as u32
    }

    fn put(&mut self, entry: Entry)
        requires var { IsVar self.old.vars entry.lit.var }
        requires none { value_of (assignment self.old.vars self.old.entries) entry.lit.var ≡ None }
        requires room { length self.old.entries < self.old.room }
        requires level { level self.old.entries ≤ entry.level }
        requires step { entry.level ≤ level self.old.entries + 1 }
        requires decided { entry.reason ≡ None → (entry.level ≡ 0) ⊎ (level self.old.entries < entry.level) }
        ensures { self.new ≡ record self.old { entries = self.old.entries ++ entry ∷ [] } }
    {
        let var = entry.lit.var();
        let place = self.next_place(var);
        self.values.set(entry.lit);
        self.places[var as usize] = place;
        self.levels[var as usize] = entry.level;
        self.entries.push_reserved(entry);
    }

    /// A literal of the cube, at level 0.
    pub fn assume(&mut self, lit: Lit)
        requires var { IsVar self.old.vars lit.var }
        requires none { value_of (assignment self.old.vars self.old.entries) lit.var ≡ None }
        requires room { length self.old.entries < self.old.room }
        requires level { level self.old.entries ≡ 0 }
        ensures { self.new ≡ record self.old { entries = self.old.entries ++ record { lit = lit; level = 0; reason = None } ∷ [] } }
    {
        self.put(Entry {
            lit,
            level: 0,
            reason: None,
        });
    }

    /// A literal that is chosen, at a level of its own.
    pub fn decide(&mut self, lit: Lit)
        requires var { IsVar self.old.vars lit.var }
        requires none { value_of (assignment self.old.vars self.old.entries) lit.var ≡ None }
        requires room { length self.old.entries < self.old.room }
        ensures { self.new ≡ record self.old { entries = self.old.entries ++ record { lit = lit; level = level self.old.entries + 1; reason = None } ∷ [] } }
    {
        let _vars = self.vars;
        let level = self.level_before(lit.var());
        self.put(Entry {
            lit,
            level: level + 1,
            reason: None,
        });
    }

    /// A literal that follows by a nogood, at the level that stands.
    pub fn imply(&mut self, lit: Lit, id: NogoodId)
        requires var { IsVar self.old.vars lit.var }
        requires none { value_of (assignment self.old.vars self.old.entries) lit.var ≡ None }
        requires room { length self.old.entries < self.old.room }
        ensures { self.new ≡ record self.old { entries = self.old.entries ++ record { lit = lit; level = level self.old.entries; reason = Some id } ∷ [] } }
    {
        let level = self.level_before(lit.var());
        self.put(Entry {
            lit,
            level,
            reason: Some(id),
        });
    }

    // Takes the newest entry away.
    fn pop(&mut self)
        requires { 0 < length self.old.entries }
        ensures same { self.new ≡ record self.old { entries = self.new.entries; seen = self.new.seen } }
        ensures entries { (d : Entry) → self.old.entries ≡ self.new.entries ++ slice_index_or self.old.entries (length self.old.entries - 1) d ∷ [] }
        ensures len { length self.new.entries + 1 ≡ length self.old.entries }
        ensures seen { self.new.seen ≡ min self.old.seen (length self.new.entries) }
    {
        if let Some(entry) = self.entries.pop() {
            self.values.unset(entry.lit.var());
            self.seen = self.seen.min(self.entries.len());
        }
    }

    /// Leaves exactly the entries of the levels up to this one.
    pub fn undo_to(&mut self, level: usize)
        ensures same { self.new ≡ record self.old { entries = self.new.entries; seen = self.new.seen } }
        ensures entries { self.new.entries ≡ cut level self.old.entries }
        ensures seen { self.new.seen ≡ min self.old.seen (length self.new.entries) }
    {
        let _seen = self.seen();
        while self.level() > level {
            self.pop();
        }
    }

    /// Leaves no entry.
    pub fn clear(&mut self)
        ensures { self.new ≡ record self.old { entries = []; seen = 0 } }
    {
        let _seen = self.seen();
        while self.len() > 0 {
            self.pop();
        }
    }

    /// The level of a variable that has a value.
    pub fn level_of(&self, var: Var) -> usize
        requires small { var ≤ self.now.vars }
        requires has { IsSome (value_of (assignment self.now.vars self.now.entries) var) }
        ensures { result ≡ level_in self.now.entries var }
    {
        let level = self.levels[var as usize];
        level as usize
    }

    /// The nogood that implied a variable that has a value. None where it was assumed or decided.
    pub fn reason_of(&self, var: Var) -> Option<NogoodId>
        requires small { var ≤ self.now.vars }
        requires has { IsSome (value_of (assignment self.now.vars self.now.entries) var) }
        ensures { result ≡ reason_in self.now.entries var }
    {
        let place = self.places[var as usize];
        self.entries[place as usize].reason
    }

    /// The place of the entry of a variable that has a value.
    pub fn place_of(&self, var: Var) -> usize
        requires small { var ≤ self.now.vars }
        requires has { IsSome (value_of (assignment self.now.vars self.now.entries) var) }
        ensures within { result < length self.now.entries }
        ensures var { (d : Entry) → (slice_index_or self.now.entries result d).lit.var ≡ var }
    {
        self.places[var as usize] as usize
    }

    /// Whether the literal held before the entry at a place came.
    pub fn held_before(&self, lit: Lit, place: usize) -> bool
        requires { lit.var ≤ self.now.vars }
        ensures { result ≡ holds_in (assignment self.now.vars (take place self.now.entries)) lit }
    {
        if self.values.holds(lit) {
            self.place_of(lit.var()) < place
        } else {
            false
        }
    }

    /// The decision of level 1, if there is one.
    pub fn first(&self) -> Option<Lit>
        ensures { result ≡ first_decision self.now.entries }
    {
        self.entries
            .iter()
            .find(|entry| entry.level == 1)
            .map(|entry| entry.lit)
    }

    /// How many of the first entries were looked at.
    pub fn seen(&self) -> usize
        ensures seen { result ≡ self.now.seen }
        ensures within { self.now.seen ≤ length self.now.entries }
    {
        self.seen
    }

    /// Says that the first n entries were looked at.
    pub fn mark_seen(&mut self, n: usize)
        requires { n ≤ length self.old.entries }
        ensures { self.new ≡ record self.old { seen = n } }
    {
        self.seen = n;
    }
}
