//! Where the literals of each variable stand in weight bodies.
ghost use Rattle.std.specs.Prelude.{◌≡◌, ◌<◌, IfOk, OnOk, length};
ghost use Rattle.std.specs.List.{All};
ghost use Rattle.asp_weight.specs.Placed.{bare, put, put_row, own_of, ArePlaces, HaveRoom};

use crate::held::{Held, NO_BIT};
use crate::item::{Item, Place, Shape};
use asp_table::buckets::Buckets;
use asp_table::table::Table;
use std::alloc::{AllocError, Global};

// Its literals have the bits from this one on, if it has any.
fn add_row(
    places: &mut Buckets<Place>,
    body: u32,
    first_bit: u32,
    row: &[Item],
) -> Result<(), AllocError>
    requires { All (λ i. i.lit.var < length places.old) row.now }
    ensures { OnOk result (bare places.new ≡ put_row body (bare places.old) row.now) }
{
    let mut bit = first_bit;
    for item in row {
        places.push(
            item.lit.var() as usize,
            Place {
                weight: item.weight,
                body,
                bit,
                truth: item.lit.truth(),
            },
        )?;
        bit = bit.saturating_add(1);
    }
    Ok(())
}

// A body's own variable has a place that weighs nothing.
fn add_body(
    places: &mut Buckets<Place>,
    body: u32,
    shape: &Shape,
    first_bit: u32,
    row: &[Item],
) -> Result<(), AllocError>
    requires within { All (λ i. i.lit.var < length places.old) row.now }
    requires var { shape.now.var < length places.old }
    ensures { OnOk result (bare places.new ≡ put shape.now.var (put_row body (bare places.old) row.now) (own_of body)) }
{
    add_row(places, body, first_bit, row)?;
    places.push(
        shape.var as usize,
        Place {
            weight: 0,
            body,
            bit: NO_BIT,
            truth: true,
        },
    )
}

/// The places of the variables from 0 to `vars`. Where there are no bodies, none are kept.
///
/// Want of memory is the one error.
pub fn places_of(
    alloc: Global,
    vars: u32,
    shapes: &[Shape],
    rows: &Table<Item>,
    held: &Held,
) -> Result<Table<Place>, AllocError>
    requires { HaveRoom vars shapes.now rows.now }
    ensures { IfOk result (λ places. ArePlaces shapes.now rows.now places) }
{
    if shapes.is_empty() {
        return Table::new(alloc);
    }
    let mut places = Buckets::new(alloc, vars as usize + 1)?;
    for body in 0..shapes.len() {
        let first_bit = held.first_bit(body);
        let row = rows.row(body);
        add_body(&mut places, body as u32, &shapes[body], first_bit, row)?;
    }
    places.into_table(alloc)
}
