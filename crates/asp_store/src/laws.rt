//! Laws of the definitions. Each function's contract is a law, and its body is empty.
ghost use Rattle.std.specs.Prelude.{◌≡◌, ◌≢◌, ◌<◌, ◌≤◌, ◌++◌, ◌∷◌, [], ℕ, Bool, false, List, Option, Some, None, IsTrue, length, min, slice_index_or};
ghost use Rattle.std.specs.List.{AllPairs};
ghost use Rattle.asp_vars.specs.Literals.{Literal, has_literal, holds_in};
ghost use Rattle.asp_vars.specs.declared.nogood.Nogood.{Nogood};
ghost use Rattle.asp_trail.specs.declared.trail.Entry.{Entry};
ghost use Rattle.asp_trail.specs.Entries.{assignment, cut};
ghost use Rattle.asp_trail.specs.Trails.{Trailed, IsOrdered};
ghost use Rattle.asp_trail.specs.Fixpoint.{is_open, is_at_fixpoint};
ghost use Rattle.asp_trail.specs.Reasons.{IsReason};
ghost use Rattle.asp_store.specs.declared.stored_nogood.Kind.{Kind};
ghost use Rattle.asp_store.specs.declared.watch.Pair.{Pair};
ghost use Rattle.asp_store.specs.Keeping.{nogood_at};
ghost use Rattle.asp_store.specs.Fitting.{IsWatched, HasFalse};
ghost use Rattle.asp_store.specs.Storing.{Stored, Fits, IsAdded, Loses, locked_at, removed, recalled, AreActive};

/// A nogood is neither unit nor violated where two literals of it aren't true, or one is false.
pub fn fixpoint_nogoods()
    ensures two { (a : List (Option Bool)) (n : List Literal) (k l : Literal) → IsTrue (has_literal n k) → IsTrue (has_literal n l) → k ≢ l →
        holds_in a k ≡ false → holds_in a l ≡ false → IsTrue (is_at_fixpoint a n) }
    ensures one { (a : List (Option Bool)) (n : List Literal) (l : Literal) → IsTrue (has_literal n l) → holds_in a l ≡ false → is_open a l ≡ false → IsTrue (is_at_fixpoint a n) }
{}

/// Where all entries were seen, a nogood that is watched is at fixpoint, and so is one with a literal that is false.
pub fn watched_nogoods_are_at_fixpoint()
    ensures watched { (vars : ℕ) (es : List Entry) (n : List Literal) (p : Pair) → IsOrdered vars es → IsWatched n p es (length es) → IsTrue (is_at_fixpoint (assignment vars es) n) }
    ensures settled { (vars : ℕ) (es : List Entry) (n : List Literal) (b : ℕ) → IsOrdered vars es → HasFalse es n b → IsTrue (is_at_fixpoint (assignment vars es) n) }
{}

/// Watches and reasons stay where a trail is extended, and where it is cut to a level.
pub fn watches_stay()
    ensures grow { (es fs : List Entry) (seen : ℕ) (n : List Literal) (p : Pair) → seen ≤ length es → IsWatched n p es seen → IsWatched n p (es ++ fs) seen }
    ensures cut { (l : ℕ) (es : List Entry) (seen : ℕ) (n : List Literal) (p : Pair) → AllPairs (λ e f. e.level ≤ f.level) es → IsWatched n p es seen →
        IsWatched n p (cut l es) (min seen (length (cut l es))) }
    ensures reason_grow { (es fs : List Entry) (i : ℕ) (l : Literal) (n : List Literal) → IsReason es i l n → IsReason (es ++ fs) i l n }
    ensures reason_cut { (c : ℕ) (es : List Entry) (i : ℕ) (l : Literal) (n : List Literal) → AllPairs (λ e f. e.level ≤ f.level) es → i < length (cut c es) →
        IsReason es i l n → IsReason (cut c es) i l n }
{}

/// A store without nogoods fits a trail without entries.
pub fn new_store_fits()
    ensures { (s : Stored) (t : Trailed) → t.vars ≡ s.vars → t.entries ≡ [] → s.slots ≡ [] → Fits s t }
{}

/// A store fits its trail still where the trail is extended by a literal that is assumed or decided, or implied by a
/// kept nogood, where it is cut to a level, and where it is cleared after the retired nogoods were recalled.
pub fn changed_trail_fits()
    ensures open { (s : Stored) (t : Trailed) (e : Entry) → t.seen ≤ length t.entries → e.reason ≡ None → Fits s t → Fits s (record t { entries = t.entries ++ e ∷ [] }) }
    ensures imply { (s : Stored) (t : Trailed) (e : Entry) (id : ℕ) (n : Nogood) → t.seen ≤ length t.entries → e.reason ≡ Some id → nogood_at s.slots id ≡ Some n →
        IsReason (t.entries ++ e ∷ []) (length t.entries) e.lit n.lits → Fits s t → Fits s (record t { entries = t.entries ++ e ∷ [] }) }
    ensures cut { (s : Stored) (t : Trailed) (l : ℕ) → AllPairs (λ e f. e.level ≤ f.level) t.entries → Fits s t →
        Fits s (record t { entries = cut l t.entries; seen = min t.seen (length (cut l t.entries)) }) }
    ensures clear { (s : Stored) (t : Trailed) → AreActive s → Fits s t → Fits s (record t { entries = []; seen = 0 }) }
{}

/// A store fits its trail still where a nogood is added, locked or unlocked, where the retired ones are recalled, and
/// where nogoods are dropped that no entry names.
pub fn changed_store_fits()
    ensures add { (s z : Stored) (t : Trailed) (id : ℕ) (n : Nogood) (kind : Kind) → IsAdded s z id n kind → Fits s t → Fits z t }
    ensures lock { (s : Stored) (t : Trailed) (id : ℕ) (b : Bool) → id < length s.slots → Fits s t → Fits (locked_at s id b) t }
    ensures recall { (s : Stored) (t : Trailed) → Fits s t → Fits (recalled s) t }
    ensures remove { (s : Stored) (t : Trailed) (id : ℕ) → id < length s.slots →
        ((i : ℕ) (d : Entry) → i < length t.entries → (slice_index_or t.entries i d).reason ≢ Some id) → Fits s t → Fits (removed s id) t }
    ensures lose { (s z : Stored) (t : Trailed) → Loses s z →
        ((i : ℕ) (d : Entry) (id : ℕ) → i < length t.entries → (slice_index_or t.entries i d).reason ≡ Some id → nogood_at z.slots id ≡ nogood_at s.slots id) → Fits s t → Fits z t }
{}
