//! The propagator of weight bodies.
//!
//! It keeps true, after every list of calls:
//! - each weight body's counters are the sums from scratch of the weights of its true and of its false literals;
//! - the first literals of each weight body, up to where the next look at it begins, have values;
//! - each weight body that isn't queued is silent under the values told.
//!
//! So `next` has to look at queued bodies alone, and with an empty queue all are silent. `assign` and `undo` queue each
//! body in which the variable stands, and the body whose variable it is: both can end a body's silence. A silent body
//! leaves the queue; one that isn't stays there until what it says is heeded or undone. A look begins where the last one
//! ended, unless an `undo` touched the body since.
ghost use Rattle.std.specs.Prelude.{◌≡◌, ◌+◌, ◌<◌, None, ◌↔◌, IsTrue, IsNone, IfOk, IfSome, length, replicate, slice_index_or, take};
ghost use Rattle.asp_vars.specs.Literals.{value_of, holds_in};
ghost use Rattle.asp_vars.specs.Numbering.{var_count};
ghost use Rattle.asp_trail.specs.Entries.{assignment};
ghost use Rattle.asp_trail.specs.Trails.{IsVar};
ghost use Rattle.asp_trail.specs.Told.{told, untold};
ghost use Rattle.asp_weight.specs.Silence.{is_silent};
ghost use Rattle.asp_weight.specs.Explained.{IsExplained, IsExcluded, IsSaid};
ghost use Rattle.asp_trail.specs.declared.trail.Entry.{Entry};
ghost use Rattle.asp_trail.specs.Reasons.{IsReason};
ghost use Rattle.asp_weight.specs.Tallied.{raise_all, lower_all, CanRaise, CanLower};
ghost use Rattle.asp_weight.specs.Placed.{places_at};

use crate::brief::brief;
use crate::held::Held;
use crate::item::{Item, Place, Shape};
use crate::late::{said_of, speech_at};
use crate::look::first_speech;
use crate::places::places_of;
use crate::rows::Rows;
use crate::speech::speak;
use crate::tally::Tallies;
use asp_model::program::Program;
use asp_table::table::Table;
use asp_trail::said::{Implied, Said};
use asp_trail::told::ToldValues;
use asp_trail::trail::Trail;
use asp_vars::compiled::Compiled;
use asp_vars::lit::Lit;
use asp_vars::nogood::Nogood;
use asp_vars::origin::Origin;
use std::alloc::{AllocError, Global};
use std::marker::Model;

/// The weight bodies of a program, with the sums that the values told give them.
#[derive(Drop)]
pub struct Weights {
    /// Gives the memory of the nogoods.
    alloc: Global,
    /// The program, for contracts alone.
    program: Origin<Program>,
    /// The values told, for contracts alone.
    values: ToldValues,
    /// By weight body: its variable, and the sums that settle it.
    shapes: Vec<Shape>,
    /// By weight body, its literals: the greatest weight first.
    rows: Table<Item>,
    /// By variable, where it stands in weight bodies. One row more than the variables; 0 is none.
    places: Table<Place>,
    /// By weight body, its sums under the values told, and the queue.
    tallies: Tallies,
    /// Which literals of long bodies hold, as hints.
    held: Held,
}

impl Model for Weights {
    ghost use Rattle.asp_trail.specs.Told.{Told};

    ghost Value = { Told };

    ghost use Rattle.asp_weight.specs.Kept.{IsKept};

    ghost view = { λ w. record { program = w.program.value; values = w.values } };

    ghost invariant = { λ w. IsKept w.program.value w.values w.shapes.items w.rows w.places w.tallies.tallies };
}

impl Weights {
    /// The weight bodies of a program, where no variable has a value. It copies them, and doesn't keep the tables.
    ///
    /// Want of memory is the one error.
    pub fn new(alloc: Global, compiled: &Compiled) -> Result<Weights, AllocError>
        ensures { IfOk result (λ w. w ≡ record { program = compiled.now; values = replicate (var_count compiled.now + 1) None }) }
    {
        let Rows { shapes, rows } = Rows::of(alloc, compiled)?;
        let vars = compiled.vars();
        let held = Held::new(alloc, &rows)?;
        let places = places_of(alloc, vars, shapes.as_slice(), &rows, &held)?;
        let tallies = Tallies::new(alloc, shapes.as_slice().len() as u32)?;
        let values = ToldValues::none(vars);
        Ok(Weights {
            alloc,
            program: Origin::of(compiled.program()),
            values,
            shapes,
            rows,
            places,
            tallies,
            held,
        })
    }

    /// The literal holds from now on. It takes no memory.
    pub fn assign(&mut self, lit: Lit)
        requires var { IsVar (var_count self.old.program) lit.var }
        requires none { value_of self.old.values lit.var ≡ None }
        ensures { self.new ≡ told self.old lit }
    {
        self.values.set(lit);
        raise(&mut self.tallies, &mut self.held, &self.places, lit);
    }

    /// The literal, which holds, doesn't hold any more, nor does its complement. It takes no memory.
    pub fn undo(&mut self, lit: Lit)
        requires var { IsVar (var_count self.old.program) lit.var }
        requires holds { IsTrue (holds_in self.old.values lit) }
        ensures { self.new ≡ untold self.old lit }
    {
        self.values.unset(lit.var());
        lower(&mut self.tallies, &mut self.held, &self.places, lit);
    }

    /// A nogood that is unit or violated and that the definition of one weight body entails, or a literal that follows
    /// from a long one, if there is one.
    ///
    /// Want of memory is the one error. Whatever comes, the values stay, and a later call looks again.
    pub fn next(&mut self, trail: &Trail) -> Result<Option<Said>, AllocError>
        requires { self.old.values ≡ assignment trail.now.vars trail.now.entries }
        ensures same { self.new ≡ self.old }
        ensures silent { IfOk result (λ n. IsNone n ↔ IsTrue (is_silent self.old.program self.old.values)) }
        ensures said { IfOk result (λ n. IfSome n (IsSaid self.old trail.now.entries)) }
    {
        let values = trail.assignment();
        let Some((body, speech)) = first_speech(
            &mut self.tallies,
            self.shapes.as_slice(),
            &self.rows,
            values,
        ) else {
            return Ok(None);
        };
        let shape = &self.shapes[body];
        let row = self.rows.row(body);
        if let Some(lit) = said_of(&speech, shape, row, values) {
            let name = body as u32;
            return Ok(Some(Said::Implied(Implied { lit, name })));
        }
        let nogood = speak(self.alloc, &speech, trail, trail.len(), shape, row)?;
        Ok(Some(Said::Nogood(nogood)))
    }

    /// The nogood by which the literal at a place followed from the weight body of this name.
    ///
    /// Want of memory is the one error.
    pub fn explain(&self, trail: &Trail, place: usize, name: u32) -> Result<Nogood, AllocError>
        requires vars { trail.now.vars ≡ var_count self.now.program }
        requires place { place < length trail.now.entries }
        requires explained { (d : Entry) → IsExplained self.now.program (take place trail.now.entries) (slice_index_or trail.now.entries place d).lit name }
        ensures excluded { IfOk result (IsExcluded self.now.program) }
        ensures reason { IfOk result (λ n. (d : Entry) → IsReason trail.now.entries place (slice_index_or trail.now.entries place d).lit n.lits) }
    {
        let _len = trail.len();
        let shape = &self.shapes[name as usize];
        let row = self.rows.row(name as usize);
        let lit = trail.lit(place);
        if let Some(nogood) = brief(
            self.alloc,
            &self.held.of(&self.places, name as usize),
            lit,
            trail,
            place,
            shape,
            row,
        )? {
            return Ok(nogood);
        }
        let speech = speech_at(lit, trail, place, shape, row);
        speak(self.alloc, &speech, trail, place, shape, row)
    }
}

// Where there are no weight bodies there are no places.
fn raise(tallies: &mut Tallies, held: &mut Held, places: &Table<Place>, lit: Lit)
    requires { CanRaise lit.truth tallies.old.tallies (places_at places.now lit.var) }
    ensures { tallies.new.tallies ≡ raise_all lit.truth tallies.old.tallies (places_at places.now lit.var) }
{
    let var = lit.var() as usize;
    if var < places.len() {
        tallies.raise(held, places.row(var), lit.truth());
    }
}

fn lower(tallies: &mut Tallies, held: &mut Held, places: &Table<Place>, lit: Lit)
    requires { CanLower lit.truth tallies.old.tallies (places_at places.now lit.var) }
    ensures { tallies.new.tallies ≡ lower_all lit.truth tallies.old.tallies (places_at places.now lit.var) }
{
    let var = lit.var() as usize;
    if var < places.len() {
        tallies.lower(held, places.row(var), lit.truth());
    }
}
