//! The sums of weight bodies, kept up to date with the literals that came to hold: so a body is looked at only where
//! it says something. This is advice alone, as the watches are.
ghost use Rattle.std.specs.Prelude.{◌≡◌, ◌+◌, ◌<◌, length};
ghost use Rattle.asp_vars.specs.Numbering.{bodies_of, var_count};

use crate::hints::{Hint, add_heavy, holds, value_of};
use asp_vars::assign::Assign;
use asp_vars::compiled::Compiled;
use asp_vars::lit::Lit;
use std::alloc::{AllocError, Global};

// That a literal stands in a weight body, or says that it holds.
#[derive(Clone, Copy)]
struct Part {
    // The scale of the body.
    scale: u32,
    // The literal's weight there; 0 for the one that says that the body holds.
    weight: i64,
}

// A weight body and its sums.
#[derive(Clone, Copy)]
struct Scale {
    body: usize,
    // The literal that says that the body holds.
    held: Lit,
    bound: i64,
    // The greatest weight.
    most: i64,
    // The weights of the literals that hold, and of those that don't fail.
    low: i64,
    high: i64,
    // The same of the literals that stay when all is taken back.
    kept_low: i64,
    kept_high: i64,
    // Whether it is to be looked at.
    is_touched: bool,
}

/// The sums of all weight bodies.
#[derive(Drop)]
pub(crate) struct Scales {
    scales: Vec<Scale>,
    // Where the literals stand, by their codes.
    parts: Vec<Part>,
    // By a literal's code, where its parts begin; one number more at the end.
    starts: Vec<usize>,
    // The literals that were counted and may be taken back.
    counted: Vec<Lit>,
    // How many of their parts were weighed.
    weighed: usize,
    // The scales that are to be looked at.
    touched: Vec<u32>,
}

// The scale of a body, where nothing has a value.
fn empty_scale(compiled: &Compiled, body: usize, bound: i32) -> Scale
    requires { body < length (bodies_of compiled.now) }
{
    let mut high: i64 = 0;
    let mut most: i64 = 0;
    for weight in compiled.weights(body) {
        high = high.saturating_add(*weight);
        most = most.max(*weight);
    }
    Scale {
        body,
        held: compiled.body_lit(body),
        bound: i64::from(bound),
        most,
        low: 0,
        high,
        kept_low: 0,
        kept_high: high,
        is_touched: false,
    }
}

// Whether the body is in conflict with its sums, or they imply something.
fn speaks(scale: &Scale, value: Option<bool>) -> bool {
    let left = scale.high.saturating_sub(scale.bound);
    let lack = scale.bound.saturating_sub(scale.low).saturating_sub(1);
    match value {
        Some(true) => lack >= 0 && left < scale.most,
        Some(false) => left >= 0 && lack < scale.most,
        None => lack < 0 || left < 0,
    }
}

fn part_at(parts: &mut [Vec<Part>], lit: Lit, part: Part) -> Result<(), AllocError> {
    if let Some(list) = parts.get_mut(lit.code()) {
        list.push(part)?;
    }
    Ok(())
}

// As many lists, all empty.
fn lists(alloc: Global, count: usize) -> Result<Vec<Vec<Part>>, AllocError> {
    let mut lists = Vec::new(alloc);
    for _ in 0..count {
        lists.push(Vec::new(alloc))?;
    }
    Ok(lists)
}

impl Scales {
    /// For a program. All weight bodies are to be looked at.
    pub(crate) fn new(alloc: Global, compiled: &Compiled) -> Result<Scales, AllocError> {
        let mut scales = Scales {
            scales: Vec::new(alloc),
            parts: Vec::new(alloc),
            starts: Vec::new(alloc),
            counted: Vec::new(alloc),
            weighed: 0,
            touched: Vec::new(alloc),
        };
        let mut parts = lists(alloc, 2 * (compiled.vars() as usize + 1))?;
        for body in 0..compiled.body_count() {
            if let Some(bound) = compiled.bound(body) {
                scales.add(&mut parts, compiled, body, bound)?;
            }
        }
        scales.join(parts.as_slice())?;
        scales.touch_all()?;
        Ok(scales)
    }

    // Puts the lists of parts one behind another.
    fn join(&mut self, lists: &[Vec<Part>]) -> Result<(), AllocError> {
        for list in lists {
            self.starts.push(self.parts.len())?;
            for part in list {
                self.parts.push(*part)?;
            }
        }
        self.starts.push(self.parts.len())?;
        Ok(())
    }

    // Adds a body, and the parts of its literals.
    fn add(
        &mut self,
        parts: &mut Vec<Vec<Part>>,
        compiled: &Compiled,
        body: usize,
        bound: i32,
    ) -> Result<(), AllocError>
        requires { body < length (bodies_of compiled.now) }
    {
        let Ok(scale) = u32::try_from(self.scales.len()) else {
            return Ok(());
        };
        self.scales.push(empty_scale(compiled, body, bound))?;
        let own = Part { scale, weight: 0 };
        part_at(parts.as_mut_slice(), compiled.body_lit(body), own)?;
        part_at(
            parts.as_mut_slice(),
            compiled.body_lit(body).complement(),
            own,
        )?;
        let weights = compiled.weights(body);
        for (lit, weight) in compiled.literals(body).iter().zip(weights) {
            let weight = *weight;
            part_at(parts.as_mut_slice(), *lit, Part { scale, weight })?;
        }
        Ok(())
    }

    fn touch_all(&mut self) -> Result<(), AllocError> {
        for at in 0..self.scales.len() {
            if let Some(scale) = self.scales.get_mut(at) {
                scale.is_touched = true;
            }
            self.touched.push(u32::try_from(at).unwrap_or(0))?;
        }
        Ok(())
    }

    // Adds a weight to the sum of a scale's literals that hold, and takes one from that of those that don't fail.
    fn weigh(&mut self, at: u32, more: i64, less: i64) {
        if let Some(scale) = self.scales.get_mut(at as usize) {
            scale.low = scale.low.saturating_add(more);
            scale.high = scale.high.saturating_sub(less);
        }
    }

    // The same. Where the scale says something then, it is marked, to be looked at.
    fn touch(
        &mut self,
        compiled: &Compiled,
        values: &Assign,
        at: u32,
        more: i64,
        less: i64,
    ) -> Result<(), AllocError>
        requires { length values.now ≡ var_count compiled.now + 1 }
    {
        let Some(scale) = self.scales.get_mut(at as usize) else {
            return Ok(());
        };
        scale.low = scale.low.saturating_add(more);
        scale.high = scale.high.saturating_sub(less);
        if !scale.is_touched && speaks(scale, value_of(compiled, values, scale.held)) {
            scale.is_touched = true;
            self.touched.push(at)?;
        }
        Ok(())
    }

    fn part(&self, place: usize) -> Part {
        match self.parts.get(place) {
            Some(part) => *part,
            None => Part {
                scale: u32::MAX,
                weight: 0,
            },
        }
    }

    // The places of a literal's parts.
    fn places(&self, lit: Lit) -> (usize, usize) {
        let code = lit.code();
        let start = self.starts.get(code).copied().unwrap_or(0);
        let end = self.starts.get(code.saturating_add(1)).copied();
        (start, end.unwrap_or(0))
    }

    /// Counts a literal that came to hold. The weight bodies that say something by it are to be looked at.
    pub(crate) fn count(
        &mut self,
        compiled: &Compiled,
        values: &Assign,
        lit: Lit,
    ) -> Result<(), AllocError>
        requires { length values.now ≡ var_count compiled.now + 1 }
    {
        let (start, end) = self.places(lit);
        let (other_start, other_end) = self.places(lit.complement());
        if start == end && other_start == other_end {
            return Ok(());
        }
        self.counted.push(lit)?;
        let own = end.saturating_sub(start);
        let others = other_end.saturating_sub(other_start);
        self.weighed = self.weighed.saturating_add(own).saturating_add(others);
        for place in start..end {
            let part = self.part(place);
            self.touch(compiled, values, part.scale, part.weight, 0)?;
        }
        for place in other_start..other_end {
            let part = self.part(place);
            self.touch(compiled, values, part.scale, 0, part.weight)?;
        }
        Ok(())
    }

    // Takes back what a literal that held counts.
    fn discount(&mut self, lit: Lit) {
        let (start, end) = self.places(lit);
        for place in start..end {
            let part = self.part(place);
            self.weigh(part.scale, part.weight.saturating_neg(), 0);
        }
        let (start, end) = self.places(lit.complement());
        for place in start..end {
            let part = self.part(place);
            self.weigh(part.scale, 0, part.weight.saturating_neg());
        }
    }

    // Keeps what a literal counts.
    fn keep(&mut self, lit: Lit) {
        let (start, end) = self.places(lit);
        for place in start..end {
            let part = self.part(place);
            if let Some(scale) = self.scales.get_mut(part.scale as usize) {
                scale.kept_low = scale.kept_low.saturating_add(part.weight);
            }
        }
        let (start, end) = self.places(lit.complement());
        for place in start..end {
            let part = self.part(place);
            if let Some(scale) = self.scales.get_mut(part.scale as usize) {
                scale.kept_high = scale.kept_high.saturating_sub(part.weight);
            }
        }
    }

    // Keeps what the counted literals count that hold, and takes back one by one what the others do, if that is wanted.
    fn take_back(&mut self, values: &Assign, vars: u32, singly: bool)
        requires { length values.now ≡ vars + 1 }
    {
        for _ in 0..u64::MAX {
            let Some(lit) = self.counted.pop() else {
                break;
            };
            if holds(values, vars, lit) {
                self.keep(lit);
            } else if singly {
                self.discount(lit);
            }
        }
    }

    // Takes back all but what is kept.
    fn reset(&mut self) {
        for scale in self.scales.as_mut_slice() {
            scale.low = scale.kept_low;
            scale.high = scale.kept_high;
        }
    }

    /// Takes back what was counted and doesn't hold any more, one by one or, where that is less, in all scales at once. Nothing is to be
    /// looked at.
    pub(crate) fn restart(&mut self, values: &Assign, vars: u32)
        requires { length values.now ≡ vars + 1 }
    {
        let singly = self.weighed < self.scales.len();
        self.take_back(values, vars, singly);
        if !singly {
            self.reset();
        }
        self.weighed = 0;
        for scale in &self.touched {
            if let Some(scale) = self.scales.get_mut(*scale as usize) {
                scale.is_touched = false;
            }
        }
        self.touched.clear();
    }

    /// The hints of the next weight body that says something.
    pub(crate) fn next_hints(
        &mut self,
        hints: &mut Vec<Hint>,
        compiled: &Compiled,
        values: &Assign,
    ) -> Result<(), AllocError>
        requires { length values.now ≡ var_count compiled.now + 1 }
    {
        for _ in 0..u64::MAX {
            let Some(at) = self.touched.pop() else {
                return Ok(());
            };
            if let Some(scale) = self.scales.get_mut(at as usize) {
                scale.is_touched = false;
                add_hints(hints, compiled, values, scale)?;
            }
            if !hints.is_empty() {
                return Ok(());
            }
        }
        Ok(())
    }
}

// Adds what a weight body may imply.
fn add_hints(
    hints: &mut Vec<Hint>,
    compiled: &Compiled,
    values: &Assign,
    scale: &Scale,
) -> Result<(), AllocError>
    requires { length values.now ≡ var_count compiled.now + 1 }
{
    let value = value_of(compiled, values, scale.held);
    if !speaks(scale, value) {
        return Ok(());
    }
    let left = scale.high.saturating_sub(scale.bound);
    let lack = scale.bound.saturating_sub(scale.low).saturating_sub(1);
    let body = scale.body;
    match value {
        Some(true) if left >= 0 => add_heavy(hints, compiled, values, body, left, true),
        Some(false) if lack >= 0 => add_heavy(hints, compiled, values, body, lack, false),
        _ => {
            let implied = if lack < 0 {
                scale.held
            } else {
                scale.held.complement()
            };
            hints.push(Hint::Body(body, implied))?;
            Ok(())
        }
    }
}
