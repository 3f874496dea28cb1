//! What was promised where sets were found: that they are listed, or the last of them, where one answer that none betters is sought.
ghost use Rattle.std.specs.Prelude.{◌≡◌, true, false, map, Contains};
ghost use Rattle.std.specs.List.{AllByRecursion};
ghost use Rattle.asp_model.specs.Sets.{Atoms};
ghost use Rattle.asp_rows.specs.Listed.{AreRows, IsRowOf};
ghost use Rattle.asp_checker.specs.Right.{promised};
ghost use Rattle.asp_checker.specs.Judging.{AreSorted};

use crate::set_list::SetList;
use asp_proof::proof::Sought;
use asp_rows::row::Row;

// Whether a row's set is among those listed, which are in order.
fn is_listed(listed: &SetList, row: &Row) -> bool
    requires row { IsRowOf listed.now.atoms row.now }
    requires order { AreSorted listed.now.sets }
    ensures yes { result ≡ true → Contains listed.now.sets row.now.set }
    ensures no { result ≡ false → Contains listed.now.sets row.now.set → ⊥ }
{
    let _atoms = listed.atoms().as_slice();
    match listed.rows().binary_search(row) {
        Ok(_) => true,
        Err(_) => false,
    }
}

// Whether each row's set is among those listed, which are in order.
fn are_listed(listed: &SetList, rows: &[Row]) -> bool
    requires rows { AreRows listed.now.atoms rows.now }
    requires order { AreSorted listed.now.sets }
    ensures yes { result ≡ true → AllByRecursion (Contains listed.now.sets) (map (λ row. row.set) rows.now) }
    ensures no { result ≡ false → AllByRecursion (Contains listed.now.sets) (map (λ row. row.set) rows.now) → ⊥ }
{
    for row in rows {
        if !is_listed(listed, row) {
            return false;
        }
    }
    true
}

// Of the rows of the sets found those that are to be listed.
fn promised(sought: Sought, found: &[Row]) -> &[Row]
    ensures sets { map (λ row. row.set) result.now ≡ promised sought (map (λ row. row.set) found.now) }
    ensures rows { (atoms : Atoms) → AreRows atoms found.now → AreRows atoms result.now }
{
    let count = found.len();
    match sought {
        Sought::All | Sought::Optima => found,
        Sought::Best => {
            if count == 0 {
                return found;
            }
            &found[count - 1..]
        }
    }
}

/// Whether what was promised is among these sets, which are in order.
pub(crate) fn is_kept(sought: Sought, found: &SetList, listed: &SetList) -> bool
    requires atoms { found.now.atoms ≡ listed.now.atoms }
    requires order { AreSorted listed.now.sets }
    ensures yes { result ≡ true → AllByRecursion (Contains listed.now.sets) (promised sought found.now.sets) }
    ensures no { result ≡ false → AllByRecursion (Contains listed.now.sets) (promised sought found.now.sets) → ⊥ }
{
    are_listed(listed, promised(sought, found.rows()))
}
