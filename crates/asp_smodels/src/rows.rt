//! Worked rows of the outcome of a text. Each holds by computing.
ghost use Rattle.std.specs.Prelude.{◌≡◌, Ok, codes, [], ◌∷◌, ◌++◌, negsuc, pos};
ghost use Rattle.asp_text.specs.declared.numbers.Num.TheVariants.{Value, NotNumber};
ghost use Rattle.asp_model.specs.declared.program.Head.TheVariants.{One, Choice};
ghost use Rattle.asp_model.specs.declared.program.Body.TheVariants.{All, AtLeast};
ghost use Rattle.asp_read.specs.Sizes.{empty_program};
ghost use Rattle.asp_read.specs.Rows.{refused};
ghost use Rattle.asp_smodels.specs.Outcome.{smodels_outcome};
ghost use Rattle.asp_smodels.specs.Texts.{after_rules, one_rule, one_symbol, rule_program};

use asp_read::fault::FaultKind;

/// The parts of a text and its end.
pub fn whole_texts()
    ensures empty { smodels_outcome [] ≡ refused 1 1 FaultKind.NoEnd }
    ensures least { smodels_outcome after_rules ≡ Ok empty_program }
    ensures no_line_feed { smodels_outcome (codes "0\n0\nB+\n0\nB-\n0\n1") ≡ Ok empty_program }
    ensures blank_lines { smodels_outcome (codes "\n 0\r\n\t\n00\nB+ \n0\nB-\n-0\n2147483647\n\n") ≡ Ok empty_program }
    ensures no_number { smodels_outcome (codes "0\n0\nB+\n0\nB-\n0\n") ≡ refused 7 1 FaultKind.NoEnd }
    ensures great_number { smodels_outcome (codes "0\n0\nB+\n0\nB-\n0\n2147483648\n") ≡ refused 7 1 (FaultKind.Natural 0 2147483647 (Value (pos 2147483648))) }
    ensures after_end { smodels_outcome (after_rules ++ codes "0\n") ≡ refused 8 1 FaultKind.AfterEnd }
    ensures section { smodels_outcome (codes "0\n0\nC+\n") ≡ refused 3 1 FaultKind.Section }
    ensures other_section { smodels_outcome (codes "0\n0\nB-\n0\n") ≡ refused 3 1 FaultKind.Section }
    ensures externals { smodels_outcome (codes "0\n0\nB+\n0\nB-\n0\nE\n1\n0\n1\n") ≡ refused 7 1 FaultKind.Externals }
    ensures extra { smodels_outcome (codes "0 1\n") ≡ refused 1 2 FaultKind.ExtraFields }
    ensures aspif { smodels_outcome (codes "asp 1 0 0\n") ≡ refused 1 1 (FaultKind.RuleType NotNumber) }
    ensures assumed { smodels_outcome (codes "0\n0\nB+\n2\nB-") ≡ refused 5 1 (FaultKind.Natural 1 2147483647 NotNumber) }
    ensures assumptions { smodels_outcome (codes "0\n0\nB+\n2\n0\nB-\n1\n0\n1\n") ≡ Ok (record empty_program { assumptions = pos 2 ∷ negsuc 0 ∷ [] }) }
{}

/// Rules that are accepted.
pub fn accepted_rules()
    ensures fact { smodels_outcome (one_rule (codes "1 2 0 0")) ≡ Ok (rule_program (record { head = One 2; body = All [] })) }
    ensures basic { smodels_outcome (one_rule (codes "1 2 2 1 3 4")) ≡ Ok (rule_program (record { head = One 2; body = All (negsuc 2 ∷ pos 4 ∷ []) })) }
    ensures cardinality { smodels_outcome (one_rule (codes "2 2 2 1 1 3 4")) ≡ Ok (rule_program (record { head = One 2; body = AtLeast (pos 1) ((negsuc 2, pos 1) ∷ (pos 4, pos 1) ∷ []) })) }
    ensures choice { smodels_outcome (one_rule (codes "3 2 2 3 0 0")) ≡ Ok (rule_program (record { head = Choice (2 ∷ 3 ∷ []); body = All [] })) }
    ensures weights { smodels_outcome (one_rule (codes "5 2 7 2 1 3 4 5 6")) ≡ Ok (rule_program (record { head = One 2; body = AtLeast (pos 7) ((negsuc 2, pos 5) ∷ (pos 4, pos 6) ∷ []) })) }
    ensures minimize { smodels_outcome (codes "6 0 1 0 2 3\n6 0 1 1 2 4\n" ++ after_rules) ≡ Ok (record empty_program { minimize = record { priority = pos 0; items = (pos 2, pos 3) ∷ [] } ∷ record { priority = pos 1; items = (negsuc 1, pos 4) ∷ [] } ∷ [] }) }
{}

/// Rules that are refused.
pub fn refused_rules()
    ensures disjunction { smodels_outcome (one_rule (codes "8 2 2 3 0 0")) ≡ refused 1 1 FaultKind.Disjunction }
    ensures external { smodels_outcome (one_rule (codes "91 2 0")) ≡ refused 1 1 (FaultKind.RuleType (Value (pos 91))) }
    ensures no_such_type { smodels_outcome (one_rule (codes "4 2 0 0")) ≡ refused 1 1 (FaultKind.RuleType (Value (pos 4))) }
    ensures negated { smodels_outcome (one_rule (codes "1 2 1 2 3")) ≡ refused 1 4 (FaultKind.Negated 1 (Value (pos 2))) }
    ensures short { smodels_outcome (one_rule (codes "1 2 1 0")) ≡ refused 1 5 (FaultKind.Natural 1 2147483647 NotNumber) }
    ensures extra { smodels_outcome (one_rule (codes "1 2 0 0 3")) ≡ refused 1 5 FaultKind.ExtraFields }
    ensures no_heads { smodels_outcome (one_rule (codes "3 0 0 0")) ≡ refused 1 2 (FaultKind.Natural 1 16777216 (Value (pos 0))) }
    ensures size { smodels_outcome (one_rule (codes "1 2 16777216 0")) ≡ refused 1 3 FaultKind.Counts }
    ensures negative_bound { smodels_outcome (one_rule (codes "5 2 -1 0 0")) ≡ refused 1 3 (FaultKind.Integer (pos 0) (pos 2147483647) (Value (negsuc 0))) }
    ensures negative_weight { smodels_outcome (one_rule (codes "6 0 1 0 2 -1")) ≡ refused 1 6 (FaultKind.Integer (pos 0) (pos 2147483647) (Value (negsuc 0))) }
{}

/// Symbols.
pub fn symbols()
    ensures name { smodels_outcome (one_symbol (codes "2 a")) ≡ Ok (record empty_program { outputs = record { text = codes "a"; condition = pos 2 ∷ [] } ∷ [] }) }
    ensures blanks { smodels_outcome (one_symbol (codes " 2\t a b ")) ≡ Ok (record empty_program { outputs = record { text = codes " a b "; condition = pos 2 ∷ [] } ∷ [] }) }
    ensures no_name { smodels_outcome (one_symbol (codes "2 ")) ≡ refused 2 2 FaultKind.Name }
    ensures no_blank { smodels_outcome (one_symbol (codes "2")) ≡ refused 2 2 FaultKind.Name }
    ensures no_atom { smodels_outcome (one_symbol (codes "a 2")) ≡ refused 2 1 (FaultKind.Natural 1 2147483647 NotNumber) }
{}
