//! The components of a program's atoms.
ghost use Rattle.std.specs.Prelude.{◌≡◌, ◌<◌, [], false, length, slice_index, slice_index_or};

use asp_table::table::Table;
use asp_vars::lit::Var;
use std::marker::Model;

/// The components of a program's atoms, numbered from 0 on. Atoms are named by their variables.
#[derive(Drop)]
pub struct Components {
    /// For each variable of an atom the number of its component.
    pub(crate) numbers: Vec<u32>,
    /// For each component its atoms.
    pub(crate) members: Table<Var>,
    /// For each component whether it has one atom alone, with no edge to itself.
    pub(crate) trivial: Vec<bool>,
}

impl Model for Components {
    ghost use Rattle.asp_scc.specs.Components.{Parts};

    ghost Value = { Parts };

    ghost view = { λ c. record { numbers = c.numbers.items; members = c.members; trivial = c.trivial.items } };
}

impl Components {
    /// The component of an atom's variable.
    pub fn of(&self, var: Var) -> u32
        requires { var < length self.now.numbers }
        ensures { result ≡ slice_index self.now.numbers var }
    {
        self.numbers[var as usize]
    }

    /// How many components there are.
    pub fn count(&self) -> usize
        ensures { result ≡ length self.now.members }
    {
        self.members.len()
    }

    /// The variables of a component's atoms.
    pub fn members(&self, component: u32) -> &[Var]
        requires { component < length self.now.members }
        ensures { result.now ≡ slice_index_or self.now.members component [] }
    {
        self.members.row(component as usize)
    }

    /// Whether a component has one atom alone, which doesn't reach itself.
    pub fn trivial(&self, component: u32) -> bool
        requires { component < length self.now.trivial }
        ensures { result ≡ slice_index_or self.now.trivial component false }
    {
        self.trivial[component as usize]
    }
}
