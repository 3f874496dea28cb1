//! Sets as rows of bits, which contracts see as a list.
ghost use Rattle.std.specs.Prelude.{◌≡◌};

use crate::rows::Rows;
use std::marker::Model;

/// Sets as rows of bits, of which contracts see the list alone: not among which atoms they are.
#[derive(Drop)]
pub struct Sets {
    /// The sets, each a row of bits.
    rows: Rows,
}

impl Model for Sets {
    ghost use Rattle.std.specs.Prelude.{List};
    ghost use Rattle.asp_model.specs.Sets.{Atoms};

    ghost Value = { List Atoms };

    ghost view = { λ s. s.rows.sets };
}

impl Sets {
    /// These sets.
    pub fn from_rows(rows: Rows) -> Sets
        ensures { result ≡ rows.sets }
    {
        Sets { rows }
    }

    /// The sets as rows.
    pub fn rows(&self) -> &Rows
        ensures { result.now.sets ≡ self.now }
    {
        &self.rows
    }
}
