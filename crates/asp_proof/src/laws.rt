//! Laws of texts of proofs. Each function's contract is a law, and its body is empty.
ghost use Rattle.std.specs.Prelude.{◌≡◌, ℕ, List, ◌++◌};
ghost use Rattle.asp_proof.specs.declared.proof.Proof.{Proof};
ghost use Rattle.asp_proof.specs.Texts.{line, last_word, text_of};
ghost use Rattle.asp_proof.specs.Grammar.{IsProof, IsFirstFault};
ghost use Rattle.asp_proof.specs.Walk.{IsStart, front_of};

/// No two proofs have one text.
pub fn one_text_is_one_proofs()
    ensures { (p q : Proof) → IsProof p → IsProof q → text_of p ≡ text_of q → p ≡ q }
{}

/// A proof that was written is read as itself, line by line: its text has no fault, and the lines that its text begins with are its own.
pub fn written_proofs_are_read_as_themselves()
    ensures faultless { (p : Proof) → IsProof p → (number : ℕ) → IsFirstFault (text_of p) number → ⊥ }
    ensures whole { (p q : Proof) (after : List ℕ) → IsProof p → IsProof q → front_of q ++ (line (last_word q.part) ++ after) ≡ text_of p → q ≡ p }
    ensures own { (p q : Proof) (rest : List ℕ) → IsProof p → IsProof q → front_of q ++ rest ≡ text_of p → IsStart q p }
{}
