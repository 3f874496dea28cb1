//! Who hears a program's answers.
ghost use Rattle.std.specs.Prelude.{◌≡◌, ◌+◌, ◌++◌, ◌<◌, ◌^◌, Bool, List, length};
ghost use mathlib.Core.List.{IsPrefix};
ghost use Rattle.asp_model.specs.declared.program.Program.{Program};
ghost use Rattle.asp_model.specs.Models.{atoms_of};
ghost use Rattle.asp_model.specs.Sets.{Atoms};

use asp_rows::rows::Rows;

/// Who hears a program's answers in their order, while they are found.
pub trait Reader {
    /// The program whose answers these are.
    ghost program: { Self → Program };

    /// The list of those that are to be heard: all answers, or all optima.
    ghost all: { Self → List Atoms };

    /// What was heard so far.
    ghost heard: { Self → List Atoms };

    /// Whether more is wanted.
    ghost wants: { Self → Bool };

    /// That hearing may lead from the one to the other.
    ghost IsAfter: { Self → Self → Type 0 };

    /// Hears the answers that come next in the list. False where no more are wanted.
    fn hear(&mut self, rows: &Rows) -> bool
        requires atoms { rows.now.atoms ≡ atoms_of (program self.old) }
        requires front { IsPrefix (heard self.old ++ rows.now.sets) (all self.old) }
        requires room { length (heard self.old) + length rows.now.sets + 1 < 2 ^ 64 }
        ensures program { program self.new ≡ program self.old }
        ensures all { all self.new ≡ all self.old }
        ensures heard { heard self.new ≡ heard self.old ++ rows.now.sets }
        ensures wanted { result ≡ wants self.new }
        ensures after { IsAfter self.old self.new };

    /// Nothing need be heard.
    ghost begins: { (u : Self) → IsAfter u u };

    /// More may be heard.
    ghost goes_on: { (u v w : Self) → IsAfter u v → IsAfter v w → IsAfter u w };
}
