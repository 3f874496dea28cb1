//! Where an atom's bit stands in a row.
ghost use Rattle.std.specs.Prelude.{◌≡◌, ◌<◌, None, false};
ghost use Rattle.std.specs.Option.{IfSome};
ghost use Rattle.asp_model.specs.Sets.{IsAscending, has};
ghost use Rattle.asp_rows.specs.Bits.{IsBitAt, IsBitOf};

use asp_model::program::Atom;

/// Where an atom's bit stands.
#[derive(Clone, Copy)]
pub struct Bit {
    /// The word, counted from 0.
    pub word: usize,
    /// How many bits stand behind it in the word, below 64.
    pub behind: u32,
}

/// The bit of the atom at a place, of so many atoms.
pub fn bit_at(count: usize, place: usize) -> Bit
    requires { place < count }
    ensures { IsBitAt count place result }
{
    let word = place / 64;
    let bits = (count - 64 * word).min(64);
    Bit {
        word,
        behind: (bits - 1 - place % 64) as u32,
    }
}

/// The bit of an atom, if it is one of these.
pub fn bit_of(atoms: &[Atom], atom: Atom) -> Option<Bit>
    requires { IsAscending atoms.now }
    ensures some { IfSome result (IsBitOf atoms.now atom) }
    ensures none { result ≡ None → has atoms.now atom ≡ false }
{
    match atoms.binary_search(&atom) {
        Ok(place) => Some(bit_at(atoms.len(), place)),
        Err(_) => None,
    }
}
