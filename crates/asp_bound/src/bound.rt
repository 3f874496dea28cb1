//! The propagator of the cost bound.
//!
//! It keeps the optimistic cost of the values that it was told: at each priority the weights of the true literals, and for
//! each variable without a value the lesser of what its values cost. A value only raises it, by what stands in its row. Where the
//! optimistic cost isn't smaller than the bound, enough of the true literals that raised it make a nogood; where it wouldn't be with
//! one more literal, that literal's complement follows, and they make its reason with it when that is asked for. At each
//! priority the variables stand in the order of what they can add, so only those that may reach the bound are looked at, from
//! a start on: those before it have values.
ghost use Rattle.std.specs.Prelude.{◌≡◌, ◌+◌, ◌^◌, ◌<◌, ◌≤◌, IfOk, IfSome, Some, None, true, length, take, slice_index_or, is_none};
ghost use Rattle.asp_trail.specs.Entries.{assignment};
ghost use Rattle.asp_trail.specs.Told.{told, untold};
ghost use Rattle.asp_trail.specs.Trails.{IsVar};
ghost use Rattle.asp_trail.specs.Reasons.{IsReason};
ghost use Rattle.asp_trail.specs.declared.trail.Entry.{Entry};
ghost use Rattle.asp_vars.specs.Literals.{value_of, holds_in};
ghost use Rattle.asp_vars.specs.Numbering.{var_count};
ghost use Rattle.asp_bound.specs.Silence.{is_silent};
ghost use Rattle.asp_bound.specs.Bounded.{IsSmaller};
ghost use Rattle.asp_bound.specs.Explained.{IsExplained, IsTooDear, IsSaid, AreTold};
ghost use Rattle.asp_bound.specs.Gathered.{valueless};

use crate::given::{following, given};
use crate::late::explained;
use crate::levels::{Tables, all_tables};
use crate::lists::{Lists, lists_of};
use crate::priced::Priced;
use crate::raisers::Raisers;
use crate::starts::take_back;
use crate::sums::{lower, raise};
use asp_model::cost::Cost;
use asp_trail::said::{Implied, Said};
use asp_trail::told::ToldValues;
use asp_trail::trail::Trail;
use asp_vars::compiled::Compiled;
use asp_vars::lit::Lit;
use asp_vars::nogood::Nogood;
use asp_vars::origin::Origin;
use std::alloc::{AllocError, Global};
use std::marker::Model;

/// The values told, the places of the weights, the optimistic cost, and the bound.
#[derive(Drop)]
pub struct Bound {
    /// Gives the memory of the nogoods.
    alloc: Global,
    /// The program, for contracts alone, and the tables of its weights.
    priced: Priced,
    /// The values told, for contracts alone.
    values: ToldValues,
    /// By priority, the optimistic cost under the values told.
    sums: Vec<i64>,
    /// The variables whose values raise the cost, the newest last. There is room for all that have places.
    raisers: Raisers,
    /// By priority, how many of the column's first variables have values at least.
    starts: Vec<usize>,
    /// The cost below which answers are sought; None before one is set.
    bound: Option<Cost>,
}

impl Model for Bound {
    ghost use Rattle.asp_bound.specs.Bounded.{Bounded};
    ghost use Rattle.asp_bound.specs.Priced.{AreTables, IsPriced};
    ghost use Rattle.asp_bound.specs.Starts.{AreStarts};
    ghost use Rattle.asp_bound.specs.Raisers.{AreRaisers};
    ghost use Rattle.std.specs.Prelude.{◌≤◌, length};

    ghost Value = { Bounded };

    ghost view = { λ b. record { told = record { program = b.priced.origin.value; values = b.values }; bound = b.bound } };

    ghost invariant = { λ b. IsPriced b.priced b.values b.sums.items × AreStarts b.values b.priced.columns b.starts.items × AreRaisers b.values b.priced.rows b.raisers.vars × (length b.priced.vars.items ≤ b.raisers.room) × AreTables b.priced };
}

impl Bound {
    /// Nothing is told, and no bound stands.
    pub fn new(alloc: Global, compiled: &Compiled) -> Result<Bound, AllocError>
        ensures { IfOk result (λ b. b ≡ record { told = record { program = compiled.now; values = valueless compiled.now }; bound = None }) }
    {
        let count = compiled.vars();
        let tables = all_tables(alloc, compiled)?;
        let lists = lists_of(alloc, &tables.rows, tables.columns.len())?;
        let Tables {
            rows,
            columns,
            sums,
        } = tables;
        let Lists {
            vars,
            starts,
            raisers,
        } = lists;
        let least = sums.as_slice().to_vec(alloc)?;
        Ok(Bound {
            alloc,
            priced: Priced {
                origin: Origin::of(compiled.program()),
                rows,
                columns,
                vars,
                least,
            },
            values: ToldValues::none(count),
            sums,
            raisers,
            starts,
            bound: None,
        })
    }

    /// The literal holds from now on.
    pub fn assign(&mut self, lit: Lit)
        requires var { IsVar (var_count self.old.told.program) lit.var }
        requires none { value_of self.old.told.values lit.var ≡ None }
        ensures { self.new ≡ record self.old { told = told self.old.told lit } }
    {
        if self.priced.vars.is_empty() {
            self.values.set(lit);
            return;
        }
        let row = self.priced.rows.row(lit.var() as usize);
        raise(self.sums.as_mut_slice(), row, lit.truth());
        self.raisers.join(row, lit);
        self.values.set(lit);
    }

    /// The literal, which held, has no value from now on.
    pub fn undo(&mut self, lit: Lit)
        requires var { IsVar (var_count self.old.told.program) lit.var }
        requires holds { holds_in self.old.told.values lit ≡ true }
        ensures { self.new ≡ record self.old { told = untold self.old.told lit } }
    {
        if self.priced.vars.is_empty() {
            self.values.unset(lit.var());
            return;
        }
        let row = self.priced.rows.row(lit.var() as usize);
        lower(self.sums.as_mut_slice(), row, lit.truth());
        take_back(self.starts.as_mut_slice(), row);
        self.raisers.leave(row, lit);
        self.values.unset(lit.var());
    }

    /// From now on smaller costs than this one are wanted.
    pub fn set(&mut self, cost: Cost)
        requires { IsSmaller cost self.old.bound }
        ensures { self.new ≡ record self.old { bound = Some cost } }
    {
        let _ = &self.sums;
        self.bound = Some(cost);
    }

    /// A nogood by the bound that stands, which is unit or violated, or a literal that follows by it. None exactly where no
    /// bound stands, or the optimistic cost is smaller and stays so with any one more variable.
    pub fn next(&mut self, trail: &Trail) -> Result<Option<Said>, AllocError>
        requires vars { trail.now.vars ≡ var_count self.old.told.program }
        requires values { self.old.told.values ≡ assignment trail.now.vars trail.now.entries }
        ensures same { self.new ≡ self.old }
        ensures silent { IfOk result (λ n. is_none n ≡ is_silent self.old.told.program self.old.bound self.old.told.values) }
        ensures said { IfOk result (λ n. IfSome n (IsSaid self.old trail.now.entries)) }
    {
        let values = trail.assignment();
        let Some(cost) = &self.bound else {
            return Ok(None);
        };
        let raisers = self.raisers.as_slice();
        let sums = self.sums.as_slice();
        let starts = self.starts.as_mut_slice();
        given(
            self.alloc,
            &self.priced,
            trail,
            values,
            raisers,
            sums,
            cost,
            starts,
        )
    }

    /// One more literal that follows by the bound. None says nothing.
    pub fn more(&mut self, trail: &Trail) -> Option<Implied>
        requires vars { trail.now.vars ≡ var_count self.old.told.program }
        requires values { self.old.told.values ≡ assignment trail.now.vars trail.now.entries }
        ensures same { self.new ≡ self.old }
        ensures follows { IfSome result (λ i. IsExplained self.old.told.program self.old.bound trail.now.entries i.lit × (i.name + 1 ≡ 2 ^ 31)) }
    {
        let values = trail.assignment();
        let Some(cost) = &self.bound else {
            return None;
        };
        let sums = self.sums.as_slice();
        let starts = self.starts.as_mut_slice();
        following(&self.priced, trail, values, sums, cost, starts)
    }

    /// The nogood by which the literal at a place followed.
    ///
    /// Want of memory is the one error.
    pub fn explain(&self, trail: &Trail, place: usize) -> Result<Nogood, AllocError>
        requires vars { trail.now.vars ≡ var_count self.now.told.program }
        requires place { place < length trail.now.entries }
        requires told { AreTold self.now.told.values place trail.now.entries }
        requires explained { (d : Entry) → IsExplained self.now.told.program self.now.bound (take place trail.now.entries) (slice_index_or trail.now.entries place d).lit }
        ensures dear { IfOk result (IsTooDear self.now.told.program self.now.bound) }
        ensures reason { IfOk result (λ n. (d : Entry) → IsReason trail.now.entries place (slice_index_or trail.now.entries place d).lit n.lits) }
    {
        let raisers = self.raisers.as_slice();
        let Some(cost) = &self.bound else {
            unreachable!()
        };
        explained(self.alloc, &self.priced, trail, place, raisers, cost)
    }
}
