//! Where atoms stand in a list of ascending ones.
ghost use Rattle.std.specs.Prelude.{◌≡◌, ◌-◌, ◌<◌, ◌≤◌, IsTrue, false, length, slice_index};
ghost use Rattle.asp_model.specs.Sets.{IsAscending};
ghost use Rattle.asp_rows.specs.Places.{IsBehind};

use asp_model::program::Atom;

// Whether all atoms before the place are below this one.
fn is_behind(atoms: &[Atom], place: usize, atom: Atom) -> bool
    requires { IsAscending atoms.now }
    ensures { IsTrue result → IsBehind atoms.now place atom }
{
    place <= atoms.len() && (place == 0 || atoms[place - 1] < atom)
}

// One of the halves between two places, where the atoms before the first are below this one and still are.
fn halve(atoms: &[Atom], low: usize, high: usize, atom: Atom) -> (usize, usize)
    requires ascending { IsAscending atoms.now }
    requires behind { IsBehind atoms.now low atom }
    requires some { low < high }
    requires within { high ≤ length atoms.now }
    ensures behind { IsBehind atoms.now result.0 atom }
    ensures within { result.1 ≤ length atoms.now }
    ensures less { result.1 - result.0 < high - low }
{
    let middle = low + (high - low) / 2;
    if is_behind(atoms, middle + 1, atom) {
        (middle + 1, high)
    } else {
        (low, middle)
    }
}

// How many atoms at the front are below this one, found by halves.
fn count_below(atoms: &[Atom], atom: Atom) -> usize
    requires { IsAscending atoms.now }
    ensures { IsBehind atoms.now result atom }
{
    let mut low = 0;
    let mut high = atoms.len();
    while low < high {
        let (from, to) = halve(atoms, low, high, atom);
        low = from;
        high = to;
    }
    low
}

/// The place, if all atoms before it are below this one, and else one of which that holds.
pub(crate) fn begin(atoms: &[Atom], place: usize, atom: Atom) -> usize
    requires { IsAscending atoms.now }
    ensures { IsBehind atoms.now result atom }
{
    if is_behind(atoms, place, atom) {
        place
    } else {
        count_below(atoms, atom)
    }
}

// The first place from this one on whose atom isn't below the given one.
fn skip(atoms: &[Atom], from: usize, atom: Atom) -> usize
    requires { IsBehind atoms.now from atom }
    ensures behind { IsBehind atoms.now result atom }
    ensures here { result < length atoms.now → atom ≤ slice_index atoms.now result }
{
    for place in from..atoms.len() {
        if atoms[place] >= atom {
            return place;
        }
    }
    atoms.len()
}

/// The first place whose atom isn't below the given one, with none before the place that is. Where the atoms up to there are a
/// run of consecutive numbers, as they mostly are, the first look finds it.
pub(crate) fn find(atoms: &[Atom], from: usize, atom: Atom) -> usize
    requires ascending { IsAscending atoms.now }
    requires some { 0 < length atoms.now }
    requires behind { IsBehind atoms.now from atom }
    ensures behind { IsBehind atoms.now result atom }
    ensures here { result < length atoms.now → atom ≤ slice_index atoms.now result }
{
    let guess = atom.saturating_sub(atoms[0]) as usize;
    if guess < atoms.len() && atoms[guess] == atom {
        return guess;
    }
    skip(atoms, from, atom)
}

/// Whether an atom stands at the place, and is at most the last one.
pub(crate) fn reaches(atoms: &[Atom], place: usize, last: Atom) -> bool
    ensures yes { IsTrue result → (place < length atoms.now) × (slice_index atoms.now place ≤ last) }
    ensures no { result ≡ false → place < length atoms.now → last < slice_index atoms.now place }
{
    place < atoms.len() && atoms[place] <= last
}
