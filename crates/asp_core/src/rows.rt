//! What a small search does, by the definitions.
ghost use Rattle.std.specs.Prelude.{◌≡◌, [], ◌∷◌, take, IsTrue};
ghost use Rattle.asp_path.specs.Trees.{all_closed};
ghost use Rattle.asp_core.specs.Boards.{start};
ghost use Rattle.asp_core.specs.Events.{run, IsLawful, replay};
ghost use Rattle.asp_core.specs.Sorting.{sorted_once};
ghost use Rattle.asp_core.specs.Rows.{two_atoms_listed, two_paths, two_leases};

/// Two numbers list the four answers over two free atoms, one of them twice.
pub fn two_paths_list_four_answers()
    ensures lawful { IsLawful (start two_atoms_listed) two_paths }
    ensures finished { IsTrue (all_closed (replay two_atoms_listed two_paths).nodes) }
    ensures sorted { sorted_once (replay two_atoms_listed two_paths).answers ≡ [] ∷ (2 ∷ []) ∷ (1 ∷ []) ∷ (1 ∷ 2 ∷ []) ∷ [] }
    ensures delivered { (replay two_atoms_listed two_paths).answers ≡ (1 ∷ []) ∷ (1 ∷ 2 ∷ []) ∷ [] ∷ (2 ∷ []) ∷ (2 ∷ []) ∷ [] }
{}

/// Two numbers lease all three units. What isn't burnt is in the pool again when both have given theirs back.
pub fn two_leases_come_back()
    ensures lawful { IsLawful (start two_atoms_listed) (two_leases 3 0) × IsLawful (start two_atoms_listed) (two_leases 0 3) }
    ensures lent { (run (start two_atoms_listed) (take 3 (two_leases 3 0))).pool ≡ 0 }
    ensures back { (replay two_atoms_listed (two_leases 3 0)).pool ≡ 3 }
    ensures burnt { (replay two_atoms_listed (two_leases 0 3)).burnt ≡ 3 }
{}
