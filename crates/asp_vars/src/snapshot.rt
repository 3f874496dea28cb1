//! Values as contracts see them, without their bytes.
ghost use Rattle.std.specs.Prelude.{◌≡◌};

use crate::origin::Origin;
use std::marker::Model;

/// A value as contracts see it, of which no code reads anything: it has no bytes, and a list of such values keeps its length
/// alone.
#[derive(Drop)]
pub struct Snapshot<T> {
    /// The value, as a fact without bytes.
    origin: Origin<T>,
}

impl<T> Model for Snapshot<T> {
    ghost Value = { T };

    ghost view = { λ s. s.origin.value };
}

impl<T> Snapshot<T> {
    /// The value as it is now. It takes no memory.
    pub fn of(value: &T) -> Snapshot<T>
        ensures { result ≡ value.now }
    {
        Snapshot {
            origin: Origin::of(value),
        }
    }
}
