//! Where unit propagation looks next: nogoods by two of their literals, weight bodies by what touched them, and the bound.
//!
//! This is advice alone, and nothing is proved of it but that it ends. What a nogood, a body or the bound says is seen to where
//! it is looked at, and what isn't named here is found by the passes over all of them.
ghost use Rattle.std.specs.Prelude.{◌≡◌, ◌+◌, ◌<◌, length};
ghost use Rattle.asp_vars.specs.Numbering.{var_count};

use crate::bounds::Bound;
use crate::hints::{Hint, fails, hints_of_bound, holds};
use crate::named::Named;
use crate::open::{another, another_from, first_open};
use crate::scales::Scales;
use crate::seek::Seeker;
use crate::set_list::SetSlice;
use asp_model::interp::Interp;
use asp_vars::assign::Assign;
use asp_vars::compiled::Compiled;
use asp_vars::lit::Lit;
use asp_vars::nogood::Lits;
use std::alloc::{AllocError, Global};

// How many nogoods of lines watch before some are retired, and how many more after each time.
const FIRST_LIMIT: usize = 2000;

const MORE: usize = 300;

// So many literals more are to hold, and a quarter more, until what a line names is looked at again.
const STRIDE: usize = 8;

// So many literals are few: such a nogood is never retired.
const SHORT: usize = 2;

// A nogood among those that watch a literal.
#[derive(Clone, Copy)]
struct Watch {
    // The nogood's place.
    place: u32,
    // Another of its literals: where that fails, the nogood needn't be looked at.
    other: Lit,
    // Whether it has no third literal.
    is_pair: bool,
}

// What is kept of a nogood, at its place.
#[derive(Clone, Copy)]
struct Entry {
    // The two literals that it watches.
    one: Lit,
    two: Lit,
    // At which of its literals the next look for a watch begins.
    start: u32,
    // How many nogoods there were when it last said something; the greatest number where it always watches.
    used: usize,
    // Whether it watches.
    is_watching: bool,
}

/// What is still to be looked at, and what watches what.
#[derive(Drop)]
pub struct Watches {
    // By a literal's code, the nogoods that watch it.
    by_code: Vec<Vec<Watch>>,
    // The nogoods, by their places.
    entries: Vec<Entry>,
    // How many of them were known before the first line. These always watch.
    first: usize,
    // Those of lines that watch, and how many there may be before some are retired.
    watching: Vec<usize>,
    limit: usize,
    // Those that don't watch any more, of which the next to be looked at, and how many are to be looked at.
    retired: Vec<usize>,
    next_retired: usize,
    retired_left: usize,
    // Those that said something, and watch again from the next line on.
    revived: Vec<usize>,
    // Those that the line names, and how many literals are to hold until they are looked at.
    named: Named,
    named_at: usize,
    // The sums of the weight bodies.
    scales: Scales,
    // Where sets are sought among those found.
    seeker: Seeker,
    // How many of the literals that came to hold are done with.
    done: usize,
    // How many of the nogoods that watch the next of them are done with.
    within: usize,
    // What is to be looked at before anything else.
    hints: Vec<Hint>,
    // How many literals had come to hold when the bound was looked at; none where it is to be looked at.
    priced_at: Option<usize>,
    // How many literals had come to hold when a set was sought; none where one is to be sought.
    sought_at: Option<usize>,
    // What was in conflict last.
    last: Option<Hint>,
    // What was in conflict when no literal was assumed.
    stuck: Option<Hint>,
}

// Which of the nogoods that watch a literal that holds is to be seen to.
#[derive(Clone, Copy)]
enum Turn {
    // None: none of them can be hit.
    End,
    // The one at this place of the list: all of its literals hold but one at most.
    Look(usize, u32),
    // The one at this place watches this literal instead, beside the other.
    Move(usize, u32, Lit, Lit),
}

// What is to be done with a nogood that watches a literal.
enum Status {
    // Nothing: the other literal that is named with it fails.
    Idle,
    // It can't be hit, since this literal fails.
    Fails(Lit),
    // It watches this literal instead, beside the other.
    Watches(Lit, Lit),
    // All of its literals hold but one at most.
    Speaks,
}

// What is to be done with a nogood that watches a literal that holds.
fn status_of(entry: &mut Entry, row: &[Lit], values: &Assign, vars: u32, held: Lit) -> Status
    requires { length values.now ≡ vars + 1 }
{
    let other = if entry.one == held {
        entry.two
    } else {
        entry.one
    };
    if fails(values, vars, other) {
        return Status::Fails(other);
    }
    match another_from(values, vars, row, entry.start as usize, other) {
        Some(spot) => {
            entry.one = other;
            entry.two = spot.lit;
            entry.start = spot.place;
            Status::Watches(spot.lit, other)
        }
        None => Status::Speaks,
    }
}

// The same, where what is named with it is looked at first.
fn status_at(
    watch: Watch,
    entries: &mut [Entry],
    rows: &[Lits],
    values: &Assign,
    vars: u32,
    held: Lit,
) -> Status
    requires { length values.now ≡ vars + 1 }
{
    if fails(values, vars, watch.other) {
        return Status::Idle;
    }
    if watch.is_pair {
        return Status::Speaks;
    }
    let place = watch.place as usize;
    let Some(entry) = entries.get_mut(place) else {
        return Status::Idle;
    };
    match rows.get(place) {
        Some(row) => status_of(entry, row.as_slice(), values, vars, held),
        None => Status::Idle,
    }
}

// The next of the nogoods that watch a literal that holds, from a place of their list on, that is to be seen to.
fn scan(
    watches: &mut [Watch],
    entries: &mut [Entry],
    rows: &[Lits],
    values: &Assign,
    vars: u32,
    held: Lit,
    start: usize,
) -> Turn
    requires { length values.now ≡ vars + 1 }
{
    for at in start..watches.len() {
        let watch = watches[at];
        let place = watch.place;
        match status_at(watch, entries, rows, values, vars, held) {
            Status::Idle => {}
            Status::Fails(other) => watches[at].other = other,
            Status::Watches(lit, other) => return Turn::Move(at, place, lit, other),
            Status::Speaks => return Turn::Look(at, place),
        }
    }
    Turn::End
}

fn is_watching(entries: &[Entry], watch: Watch) -> bool {
    match entries.get(watch.place as usize) {
        Some(entry) => entry.is_watching,
        None => false,
    }
}

// As many lists, all empty.
fn lists<T: Drop>(alloc: Global, count: usize) -> Result<Vec<Vec<T>>, AllocError> {
    let mut lists = Vec::new(alloc);
    for _ in 0..count {
        lists.push(Vec::new(alloc))?;
    }
    Ok(lists)
}

impl Watches {
    /// For a program, with no nogood yet. All weight bodies are to be looked at.
    pub(crate) fn new(alloc: Global, compiled: &Compiled) -> Result<Watches, AllocError> {
        let by_code = lists(alloc, 2 * (compiled.vars() as usize + 1))?;
        let scales = Scales::new(alloc, compiled)?;
        Ok(Watches {
            by_code,
            entries: Vec::new(alloc),
            first: 0,
            watching: Vec::new(alloc),
            limit: FIRST_LIMIT,
            retired: Vec::new(alloc),
            next_retired: 0,
            retired_left: 0,
            revived: Vec::new(alloc),
            named: Named::new(alloc),
            named_at: 0,
            scales,
            seeker: Seeker::new(alloc),
            done: 0,
            within: 0,
            hints: Vec::new(alloc),
            priced_at: None,
            sought_at: None,
            last: None,
            stuck: None,
        })
    }

    /// What its lists are taken from.
    pub(crate) fn allocator(&self) -> Global {
        *self.hints.allocator()
    }

    fn watch(
        &mut self,
        lit: Lit,
        place: usize,
        other: Lit,
        is_pair: bool,
    ) -> Result<(), AllocError> {
        let Ok(place) = u32::try_from(place) else {
            return Ok(());
        };
        if let Some(watches) = self.by_code.get_mut(lit.code()) {
            watches.push(Watch {
                place,
                other,
                is_pair,
            })?;
        }
        Ok(())
    }

    // Lets a nogood watch two of its literals that don't hold, if there are two; else it is to be looked at.
    fn watch_two(
        &mut self,
        values: &Assign,
        vars: u32,
        lits: &[Lit],
        place: usize,
    ) -> Result<(), AllocError>
        requires { length values.now ≡ vars + 1 }
    {
        let Some(one) = first_open(values, vars, lits) else {
            return self.hint(place);
        };
        let Some(two) = another(values, vars, lits, one) else {
            return self.hint(place);
        };
        if let Some(entry) = self.entries.get_mut(place) {
            entry.one = one;
            entry.two = two;
            entry.is_watching = true;
        }
        let is_pair = lits.len() == 2;
        self.watch(one, place, two, is_pair)?;
        self.watch(two, place, one, is_pair)
    }

    fn hint(&mut self, place: usize) -> Result<(), AllocError> {
        self.hints.push(Hint::Nogood(place))?;
        Ok(())
    }

    // Adds the next nogood.
    fn add(
        &mut self,
        values: &Assign,
        vars: u32,
        lits: &[Lit],
        used: usize,
    ) -> Result<(), AllocError>
        requires { length values.now ≡ vars + 1 }
    {
        let place = self.entries.len();
        let none = Lit::new(0, true);
        self.entries.push(Entry {
            one: none,
            two: none,
            start: 0,
            used,
            is_watching: false,
        })?;
        self.watch_two(values, vars, lits, place)
    }

    /// Adds the first nogoods.
    pub(crate) fn add_all(
        &mut self,
        values: &Assign,
        vars: u32,
        rows: &[Lits],
    ) -> Result<(), AllocError>
        requires { length values.now ≡ vars + 1 }
    {
        for row in rows {
            self.add(values, vars, row.as_slice(), usize::MAX)?;
        }
        self.first = self.entries.len();
        Ok(())
    }

    /// Adds the last nogood, which is a line's. Where there are too many, some are retired.
    pub(crate) fn add_last(
        &mut self,
        values: &Assign,
        vars: u32,
        rows: &[Lits],
    ) -> Result<(), AllocError>
        requires { length values.now ≡ vars + 1 }
    {
        let Some(row) = rows.last() else {
            return Ok(());
        };
        let lits = row.as_slice();
        if lits.len() <= SHORT {
            return self.add(values, vars, lits, usize::MAX);
        }
        let place = self.entries.len();
        self.watching.push(place)?;
        self.add(values, vars, lits, place)?;
        if self.watching.len() > self.limit {
            self.limit = self.limit.saturating_add(MORE);
            return self.retire();
        }
        Ok(())
    }

    // When the middle one of those that watch was used.
    fn middle_use(&self) -> Result<usize, AllocError> {
        let mut uses = Vec::new(*self.watching.allocator());
        for place in &self.watching {
            uses.push(self.used(*place))?;
        }
        uses.sort_unstable();
        Ok(uses.get(uses.len() / 2).copied().unwrap_or(0))
    }

    // Retires a nogood that watches.
    fn retire_one(&mut self, place: usize) -> Result<(), AllocError> {
        if let Some(entry) = self.entries.get_mut(place) {
            entry.is_watching = false;
        }
        self.retired.push(place)?;
        Ok(())
    }

    // Retires those that were used before the middle one.
    fn retire(&mut self) -> Result<(), AllocError> {
        let least = self.middle_use()?;
        let mut left = Vec::new(*self.watching.allocator());
        for _ in 0..u64::MAX {
            let Some(place) = self.watching.pop() else {
                break;
            };
            if self.used(place) < least {
                self.retire_one(place)?;
            } else {
                left.push(place)?;
            }
        }
        self.watching = left;
        self.unwatch();
        Ok(())
    }

    // Drops those that don't watch any more from all lists.
    fn unwatch(&mut self) {
        let entries = self.entries.as_slice();
        for watches in self.by_code.as_mut_slice() {
            watches.retain(|watch| is_watching(entries, *watch));
        }
    }

    fn used(&self, place: usize) -> usize {
        match self.entries.get(place) {
            Some(entry) => entry.used,
            None => 0,
        }
    }

    // The nogood said something.
    fn use_now(&mut self, place: usize) {
        if place < self.first {
            return;
        }
        let now = self.entries.len();
        if let Some(entry) = self.entries.get_mut(place) {
            if entry.used < now {
                entry.used = now;
            }
        }
    }

    // Those that said something watch again.
    fn revive(&mut self, values: &Assign, vars: u32, rows: &[Lits]) -> Result<(), AllocError>
        requires { length values.now ≡ vars + 1 }
    {
        for _ in 0..u64::MAX {
            let Some(place) = self.revived.pop() else {
                return Ok(());
            };
            if let Some(row) = rows.get(place) {
                self.watching.push(place)?;
                self.watch_two(values, vars, row.as_slice(), place)?;
            }
        }
        Ok(())
    }

    /// Begins anew, with no literal that came to hold.
    pub(crate) fn restart(
        &mut self,
        values: &Assign,
        vars: u32,
        rows: &[Lits],
    ) -> Result<(), AllocError>
        requires { length values.now ≡ vars + 1 }
    {
        self.hints.clear();
        self.scales.restart(values, vars);
        self.done = 0;
        self.within = 0;
        self.priced_at = None;
        self.sought_at = None;
        self.retired_left = 0;
        self.named.clear();
        self.named_at = 0;
        self.revive(values, vars, rows)?;
        if let Some(hint) = self.stuck {
            self.hints.push(hint)?;
        }
        Ok(())
    }

    /// Those that don't watch are to be looked at too.
    pub(crate) fn look_deeper(&mut self) {
        self.retired_left = self.retired.len();
    }

    /// A set was found, and stands at this place.
    pub(crate) fn note(&mut self, set: &Interp, place: usize) -> Result<(), AllocError> {
        self.seeker.note(set, place)
    }

    /// A line names these places.
    pub(crate) fn name(&mut self, places: &[u32]) -> Result<(), AllocError> {
        self.named.name(places)
    }

    /// This was in conflict.
    pub(crate) fn keep(&mut self, hint: Hint) {
        self.last = Some(hint);
    }

    /// Where there was a conflict with no literal assumed, what was in conflict last is looked at first from here on.
    pub(crate) fn stick(&mut self, refuted: bool) {
        if refuted {
            self.stuck = self.last;
        }
    }

    // Lets a nogood watch another literal than the one that holds.
    fn rewatch(&mut self, held: Lit, place: u32, lit: Lit, other: Lit) -> Result<(), AllocError> {
        if let Some(watches) = self.by_code.get_mut(held.code()) {
            if self.within < watches.len() {
                watches.swap_remove(self.within);
            }
        }
        if let Some(watches) = self.by_code.get_mut(lit.code()) {
            watches.push(Watch {
                place,
                other,
                is_pair: false,
            })?;
        }
        Ok(())
    }

    // The next nogood to look at among those that watch a literal that holds.
    fn next_of(
        &mut self,
        rows: &[Lits],
        values: &Assign,
        vars: u32,
        held: Lit,
    ) -> Result<Option<usize>, AllocError>
        requires { length values.now ≡ vars + 1 }
    {
        for _ in 0..u64::MAX {
            let Some(watches) = self.by_code.get_mut(held.code()) else {
                return Ok(None);
            };
            let entries = self.entries.as_mut_slice();
            match scan(
                watches.as_mut_slice(),
                entries,
                rows,
                values,
                vars,
                held,
                self.within,
            ) {
                Turn::End => return Ok(None),
                Turn::Look(at, place) => {
                    self.within = at.saturating_add(1);
                    self.use_now(place as usize);
                    return Ok(Some(place as usize));
                }
                Turn::Move(at, place, lit, other) => {
                    self.within = at;
                    self.rewatch(held, place, lit, other)?;
                }
            }
        }
        Ok(None)
    }

    // Whether a nogood that doesn't watch says something. Else two of its literals show that it doesn't.
    fn speaks(&mut self, rows: &[Lits], values: &Assign, vars: u32, place: usize) -> bool
        requires { length values.now ≡ vars + 1 }
    {
        let Some(entry) = self.entries.get_mut(place) else {
            return false;
        };
        if fails(values, vars, entry.one) || fails(values, vars, entry.two) {
            return false;
        }
        if !holds(values, vars, entry.one) && !holds(values, vars, entry.two) {
            return false;
        }
        let Some(row) = rows.get(place) else {
            return false;
        };
        let Some(one) = first_open(values, vars, row.as_slice()) else {
            return true;
        };
        match another(values, vars, row.as_slice(), one) {
            Some(two) => {
                entry.one = one;
                entry.two = two;
                false
            }
            None => {
                if fails(values, vars, one) {
                    entry.one = one;
                    return false;
                }
                true
            }
        }
    }

    // The next nogood that doesn't watch and says something.
    fn next_of_retired(
        &mut self,
        rows: &[Lits],
        values: &Assign,
        vars: u32,
    ) -> Result<Option<usize>, AllocError>
        requires { length values.now ≡ vars + 1 }
    {
        for _ in 0..u64::MAX {
            if self.retired_left == 0 {
                return Ok(None);
            }
            if self.next_retired >= self.retired.len() {
                self.next_retired = 0;
            }
            let Some(place) = self.retired.get(self.next_retired).copied() else {
                return Ok(None);
            };
            if self.speaks(rows, values, vars, place) {
                if self.next_retired < self.retired.len() {
                    self.retired.swap_remove(self.next_retired);
                }
                self.retired_left = self.retired.len();
                self.revived.push(place)?;
                self.use_now(place);
                return Ok(Some(place));
            }
            self.next_retired = self.next_retired.saturating_add(1);
            self.retired_left = self.retired_left.saturating_sub(1);
        }
        Ok(None)
    }

    // The next nogood that may be hit, or imply something.
    fn next_nogood(
        &mut self,
        compiled: &Compiled,
        rows: &[Lits],
        values: &Assign,
        trail: &[Lit],
    ) -> Result<Option<usize>, AllocError>
        requires { length values.now ≡ var_count compiled.now + 1 }
    {
        for _ in 0..u64::MAX {
            let Some(held) = trail.get(self.done).copied() else {
                return Ok(None);
            };
            if let Some(place) = self.next_of(rows, values, compiled.vars(), held)? {
                return Ok(Some(place));
            }
            self.scales.count(compiled, values, held)?;
            self.done = self.done.saturating_add(1);
            self.within = 0;
        }
        Ok(None)
    }

    // What the bound may imply.
    fn price(
        &mut self,
        compiled: &Compiled,
        bound: &Option<Bound>,
        values: &Assign,
        trail: &[Lit],
    ) -> Result<(), AllocError>
        requires { length values.now ≡ var_count compiled.now + 1 }
    {
        let held = trail.len();
        if self.priced_at == Some(held) {
            return Ok(());
        }
        self.priced_at = Some(held);
        match bound {
            Some(bound) => hints_of_bound(&mut self.hints, compiled, bound, values),
            None => Ok(()),
        }
    }

    // The set found that is to be looked at.
    fn next_answer(
        &mut self,
        compiled: &Compiled,
        listed: &SetSlice<'_>,
        values: &Assign,
        held: usize,
    ) -> Option<usize>
        requires { length values.now ≡ var_count compiled.now + 1 }
    {
        if listed.len() == 0 || self.sought_at == Some(held) {
            return None;
        }
        self.sought_at = Some(held);
        self.seeker.near(compiled, values)
    }

    /// What is to be looked at next, or nothing.
    pub(crate) fn next(
        &mut self,
        compiled: &Compiled,
        listed: &SetSlice<'_>,
        rows: &[Lits],
        placed: &[Lits],
        bound: &Option<Bound>,
        values: &Assign,
        trail: &[Lit],
    ) -> Result<Option<Hint>, AllocError>
        requires { length values.now ≡ var_count compiled.now + 1 }
    {
        if let Some(hint) = self.hints.pop() {
            return Ok(Some(hint));
        }
        let held = trail.len();
        if held >= self.named_at {
            if let Some(place) = self.named.next(placed, values, compiled.vars(), held)? {
                return Ok(Some(Hint::Placed(place)));
            }
            self.named_at = held.saturating_add(held / 4).saturating_add(STRIDE);
        }
        if let Some(place) = self.next_nogood(compiled, rows, values, trail)? {
            return Ok(Some(Hint::Nogood(place)));
        }
        self.scales.next_hints(&mut self.hints, compiled, values)?;
        if let Some(hint) = self.hints.pop() {
            return Ok(Some(hint));
        }
        if let Some(place) = self.named.next(placed, values, compiled.vars(), held)? {
            return Ok(Some(Hint::Placed(place)));
        }
        self.price(compiled, bound, values, trail)?;
        if let Some(hint) = self.hints.pop() {
            return Ok(Some(hint));
        }
        if let Some(place) = self.next_answer(compiled, listed, values, trail.len()) {
            return Ok(Some(Hint::Answer(place)));
        }
        match self.next_of_retired(rows, values, compiled.vars())? {
            Some(place) => Ok(Some(Hint::Nogood(place))),
            None => Ok(None),
        }
    }
}
