//! What stays true of a trail's cube and decisions where the trail changes. Each function's contract is a law, and its
//! body is empty.
ghost use Rattle.std.specs.Prelude.{◌≡◌, ◌≢◌, ◌+◌, ◌≤◌, ◌++◌, ◌∷◌, [], ℕ, Bool, List, None, Some, IsTrue, take};
ghost use Rattle.std.specs.List.{AllPairs};
ghost use Rattle.asp_vars.specs.Literals.{Literal, complement, has_literal, value_of};
ghost use Rattle.asp_trail.specs.declared.trail.Entry.{Entry};
ghost use Rattle.asp_trail.specs.Entries.{assignment, cut, level};
ghost use Rattle.asp_trail.specs.Trails.{IsOrdered};
ghost use Rattle.asp_trail_laws.specs.Fixpoint.{AreAtFixpoint, WereAtFixpoint};
ghost use Rattle.asp_trail_laws.specs.Starts.{AreAssumed, AreAtZero, AreImplied, AreStarts};

/// A cube is assumed literal by literal: each comes to hold, or holds, or its complement is of the cube. Once all hold,
/// they are what begins the trail.
pub fn cubes_are_assumed()
    ensures none { (cube : List Literal) → AreAssumed cube [] }
    ensures none_stand { (entries : List Entry) → AreAtZero [] entries }
    ensures assume { (cube : List Literal) (entries : List Entry) (l : Literal) → AreAssumed cube entries → IsTrue (has_literal cube l) →
        AreAssumed cube (entries ++ record { lit = l; level = 0; reason = None } ∷ []) }
    ensures stand { (part : List Literal) (entries : List Entry) (l : Literal) → AreAtZero part entries →
        AreAtZero (part ++ l ∷ []) (entries ++ record { lit = l; level = 0; reason = None } ∷ []) }
    ensures held { (cube part : List Literal) (vars : ℕ) (entries : List Entry) (l : Literal) (b : Bool) → IsOrdered vars entries → AreAssumed cube entries → AreAtZero part entries →
        value_of (assignment vars entries) l.var ≡ Some b → b ≡ l.truth → AreAtZero (part ++ l ∷ []) entries }
    ensures clash { (cube : List Literal) (vars : ℕ) (entries : List Entry) (l : Literal) (b : Bool) → IsOrdered vars entries → AreAssumed cube entries →
        value_of (assignment vars entries) l.var ≡ Some b → b ≢ l.truth → IsTrue (has_literal cube (complement l)) }
    ensures level { (cube : List Literal) (entries : List Entry) → AreAssumed cube entries → level entries ≡ 0 }
    ensures starts { (cube : List Literal) (entries : List Entry) → AreAssumed cube entries → AreAtZero cube entries → AreStarts cube [] entries }
    ensures fixpoint { (vars : ℕ) (nogoods : List (List Literal)) (cube : List Literal) (entries : List Entry) → AreAssumed cube entries → WereAtFixpoint vars nogoods entries }
{}

/// What begins a trail stays where literals are implied, where one is decided, and where the trail is cut to a level.
pub fn starts_stay()
    ensures imply { (cube decisions : List Literal) (entries more : List Entry) → AreImplied (level entries) more → AreStarts cube decisions entries →
        AreStarts cube decisions (entries ++ more) }
    ensures imply_one { (cube decisions : List Literal) (entries : List Entry) (l : Literal) (id : ℕ) → AreStarts cube decisions entries →
        AreStarts cube decisions (entries ++ record { lit = l; level = level entries; reason = Some id } ∷ []) }
    ensures decide { (vars : ℕ) (cube decisions : List Literal) (entries : List Entry) (l : Literal) → IsOrdered vars entries → AreStarts cube decisions entries →
        AreStarts cube (decisions ++ l ∷ []) (entries ++ record { lit = l; level = level entries + 1; reason = None } ∷ []) }
    ensures cut { (vars : ℕ) (cube decisions : List Literal) (entries : List Entry) (k : ℕ) → IsOrdered vars entries → AreStarts cube decisions entries →
        AreStarts cube (take k decisions) (cut k entries) }
{}

/// That nogoods were at fixpoint before each decision stays where literals are implied or assumed, where one is decided while
/// they are at fixpoint, and where the trail is cut to a level.
pub fn fixpoint_stays()
    ensures none { (vars : ℕ) (nogoods : List (List Literal)) → WereAtFixpoint vars nogoods [] }
    ensures imply { (vars : ℕ) (nogoods : List (List Literal)) (entries more : List Entry) (b : ℕ) → AreImplied b more → WereAtFixpoint vars nogoods entries →
        WereAtFixpoint vars nogoods (entries ++ more) }
    ensures imply_one { (vars : ℕ) (nogoods : List (List Literal)) (entries : List Entry) (l : Literal) (b id : ℕ) → WereAtFixpoint vars nogoods entries →
        WereAtFixpoint vars nogoods (entries ++ record { lit = l; level = b; reason = Some id } ∷ []) }
    ensures assume { (vars : ℕ) (nogoods : List (List Literal)) (entries : List Entry) (l : Literal) → WereAtFixpoint vars nogoods entries →
        WereAtFixpoint vars nogoods (entries ++ record { lit = l; level = 0; reason = None } ∷ []) }
    ensures decide { (vars : ℕ) (nogoods : List (List Literal)) (entries : List Entry) (l : Literal) (b : ℕ) → AreAtFixpoint vars nogoods entries → WereAtFixpoint vars nogoods entries →
        WereAtFixpoint vars nogoods (entries ++ record { lit = l; level = b; reason = None } ∷ []) }
    ensures cut { (vars : ℕ) (nogoods : List (List Literal)) (entries : List Entry) (k : ℕ) → AllPairs (λ e f. e.level ≤ f.level) entries → WereAtFixpoint vars nogoods entries →
        WereAtFixpoint vars nogoods (cut k entries) }
{}
