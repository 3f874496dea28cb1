//! Sets of atoms as rows of bits.
#![tactic(auto)]

pub mod bits;
mod place;
pub mod row;
pub mod rows;
pub mod sets;
