//! Worked rows of the outcome of a text. Each holds by computing.

ghost use Rattle.std.specs.Prelude.{◌≡◌, Ok, codes, [], ◌∷◌, negsuc, pos};
ghost use Rattle.asp_text.specs.declared.numbers.Num.TheVariants.{Value, NotNumber};
ghost use Rattle.asp_model.specs.declared.program.Head.TheVariants.{One, Choice};
ghost use Rattle.asp_model.specs.declared.program.Body.TheVariants.{All, AtLeast};
ghost use Rattle.asp_read.specs.Sizes.{empty_program};
ghost use Rattle.asp_read.specs.Outcome.{outcome};
ghost use Rattle.asp_read.specs.Queries.{series_outcome};
ghost use Rattle.asp_read.specs.Rows.{after_header, asks_nothing_of, refused, refused_series, rule_program};

use crate::fault::FaultKind;

/// The faults of the header and of the end.
#[tactic(auto, unfolding(crate::specs::Judging::outcome_from, crate::specs::Judging::judge_all, crate::specs::Statements::header_at, crate::specs::Statements::statement_with, crate::specs::Statements::of_kind))]
pub fn whole_texts()
    ensures minor { outcome (codes "asp 1 1 0\n0\n") ≡ refused 1 1 FaultKind.Header }
    ensures short { outcome (codes "asp 1 0\n0\n") ≡ refused 1 1 FaultKind.Header }
    ensures incremental { outcome (codes "asp 1 0 0 incremental\n0\n") ≡ refused 1 5 FaultKind.Incremental }
    ensures tag { outcome (codes "asp 1 0 0 x\n0\n") ≡ refused 1 5 FaultKind.Tag }
    ensures extra { outcome (codes "asp 1 0 0\n0 0\n") ≡ refused 2 2 FaultKind.ExtraFields }
    ensures after_end { outcome (codes "asp 1 0 0\n0\n10 x\n") ≡ refused 3 1 FaultKind.AfterEnd }
    ensures empty { outcome [] ≡ refused 1 1 FaultKind.Empty }
    ensures no_line_feed { outcome (codes "asp 1 0 7\n0") ≡ Ok empty_program }
    ensures blank_lines { outcome (codes "\n \t\r\nasp 1 0 0\r\n\n0\r\n") ≡ Ok empty_program }
{}

/// The faults of a line after the header.
#[tactic(auto, unfolding(crate::specs::Judging::outcome_from, crate::specs::Judging::judge_all, crate::specs::Statements::header_at, crate::specs::Statements::statement_with, crate::specs::Statements::of_kind, crate::specs::Statements::rule_at, crate::specs::Statements::head_at, crate::specs::Statements::body_at, crate::specs::Statements::output_at, crate::specs::Statements::minimize_at, crate::specs::Statements::external_at, crate::specs::Statements::heuristic_at, crate::specs::Fields::passed_at, crate::specs::Fields::any_literal_at, crate::specs::Fields::many_at, crate::specs::Fields::count_at, crate::specs::Fields::atom_at, crate::specs::Fields::literal_at, crate::specs::Fields::weighted_at))]
pub fn refused_lines()
    ensures kind { outcome (after_header (codes "11 1")) ≡ refused 2 1 (FaultKind.Statement (Value (pos 11))) }
    ensures modifier { outcome (after_header (codes "7 6 1 1 1 0")) ≡ refused 2 2 (FaultKind.Natural 0 5 (Value (pos 6))) }
    ensures hinted_atom { outcome (after_header (codes "7 0 0 1 1 0")) ≡ refused 2 3 (FaultKind.Natural 1 2147483647 (Value (pos 0))) }
    ensures short_condition { outcome (after_header (codes "7 0 1 1 1 2 3")) ≡ refused 2 8 (FaultKind.Integer (negsuc 2147483646) (pos 2147483647) NotNumber) }
    ensures long_condition { outcome (after_header (codes "7 0 1 1 1 1 3 4")) ≡ refused 2 8 FaultKind.ExtraFields }
    ensures edge { outcome (after_header (codes "8 0 1 0")) ≡ refused 2 2 FaultKind.Edge }
    ensures theory { outcome (after_header (codes "9 0 0 1")) ≡ refused 2 2 FaultKind.Theory }
    ensures word { outcome (after_header (codes "x")) ≡ refused 2 1 (FaultKind.Statement NotNumber) }
    ensures short_rule { outcome (after_header (codes "1 0 1")) ≡ refused 2 4 (FaultKind.Natural 1 2147483647 NotNumber) }
    ensures atom_0 { outcome (after_header (codes "1 0 1 0 0 0")) ≡ refused 2 4 (FaultKind.Natural 1 2147483647 (Value (pos 0))) }
    ensures negative_weight { outcome (after_header (codes "1 0 1 1 1 1 1 2 -1")) ≡ refused 2 9 (FaultKind.Integer (pos 0) (pos 2147483647) (Value (negsuc 0))) }
    ensures plus { outcome (after_header (codes "1 0 1 1 0 1 +2")) ≡ refused 2 7 (FaultKind.Integer (negsuc 2147483646) (pos 2147483647) NotNumber) }
    ensures disjunction { outcome (after_header (codes "1 0 2 1 2 x")) ≡ refused 2 3 FaultKind.Disjunction }
    ensures size { outcome (after_header (codes "1 0 0 0 16777217")) ≡ refused 2 5 FaultKind.Counts }
    ensures long_text { outcome (after_header (codes "4 1 ab 1 1")) ≡ refused 2 3 FaultKind.Text }
    ensures no_text { outcome (after_header (codes "4 0")) ≡ refused 2 3 FaultKind.Text }
    ensures no_count { outcome (after_header (codes "4 1 a")) ≡ refused 2 4 (FaultKind.Natural 0 2147483647 NotNumber) }
    ensures priority { outcome (after_header (codes "2 99999999999 0")) ≡ refused 2 2 (FaultKind.Integer (negsuc 2147483647) (pos 2147483647) (Value (pos 99999999999))) }
    ensures great_atom { outcome (after_header (codes "1 0 1 2147483648 0 0")) ≡ refused 2 4 (FaultKind.Natural 1 2147483647 (Value (pos 2147483648))) }
    ensures head_kind { outcome (after_header (codes "1 2 1 1 0 0")) ≡ refused 2 2 (FaultKind.Natural 0 1 (Value (pos 2))) }
    ensures external { outcome (after_header (codes "5 1 4")) ≡ refused 2 3 (FaultKind.Natural 0 3 (Value (pos 4))) }
    ensures literal_0 { outcome (after_header (codes "6 1 0")) ≡ refused 2 3 (FaultKind.Integer (negsuc 2147483646) (pos 2147483647) (Value (pos 0))) }
    ensures extra { outcome (after_header (codes "1 0 1 1 0 0 0")) ≡ refused 2 7 FaultKind.ExtraFields }
{}

/// What is accepted.
#[tactic(auto, unfolding(crate::specs::Judging::outcome_from, crate::specs::Judging::judge_all, crate::specs::Statements::header_at, crate::specs::Statements::statement_with, crate::specs::Statements::of_kind, crate::specs::Statements::rule_at, crate::specs::Statements::head_at, crate::specs::Statements::body_at, crate::specs::Statements::output_at, crate::specs::Statements::minimize_at, crate::specs::Statements::external_at, crate::specs::Statements::heuristic_at, crate::specs::Fields::passed_at, crate::specs::Fields::any_literal_at, crate::specs::Fields::many_at, crate::specs::Fields::count_at, crate::specs::Fields::atom_at, crate::specs::Fields::literal_at, crate::specs::Fields::weighted_at))]
pub fn accepted_lines()
    ensures comment { outcome (after_header (codes "10 any text")) ≡ Ok empty_program }
    ensures heuristic { outcome (after_header (codes "7 5 3 -2 1 2 4 -5")) ≡ Ok empty_program }
    ensures lenient { outcome (after_header (codes " \t01\t0 1  001 0 0 ")) ≡ Ok (rule_program (record { head = One 1; body = All [] })) }
    ensures choice { outcome (after_header (codes "1 1 0 0 0")) ≡ Ok (rule_program (record { head = Choice []; body = All [] })) }
    ensures bound { outcome (after_header (codes "1 0 1 1 1 -3 0")) ≡ Ok (rule_program (record { head = One 1; body = AtLeast (negsuc 2) [] })) }
    ensures normal { outcome (after_header (codes "1 0 1 1 0 1 -2")) ≡ Ok (rule_program (record { head = One 1; body = All (negsuc 1 ∷ []) })) }
    ensures text { outcome (after_header (codes "4 3 a b 0")) ≡ Ok (record empty_program { outputs = record { text = codes "a b"; condition = [] } ∷ [] }) }
    ensures empty_text { outcome (after_header (codes "4 0  0")) ≡ Ok (record empty_program { outputs = record { text = []; condition = [] } ∷ [] }) }
{}

/// Texts with queries.
#[tactic(auto, unfolding(crate::specs::Judging::outcome_from, crate::specs::Judging::judge_all, crate::specs::Statements::header_at, crate::specs::Statements::statement_with, crate::specs::Statements::of_kind, crate::specs::Queries::query_line, crate::specs::Queries::query_at, crate::specs::Fields::many_at, crate::specs::Fields::count_at, crate::specs::Fields::literal_at))]
pub fn queries()
    ensures none { series_outcome (codes "asp 1 0 0\n0\n0\n") ≡ asks_nothing_of [] }
    ensures two { series_outcome (codes "asp 1 0 0\n0\n6 1 7\n10 x\n\n6 2 -7 8\n0") ≡ asks_nothing_of ((pos 7 ∷ []) ∷ (negsuc 6 ∷ pos 8 ∷ []) ∷ []) }
    ensures empty { series_outcome (codes "asp 1 0 0\n0\n6 0\n0\n") ≡ asks_nothing_of ([] ∷ []) }
    ensures missing { series_outcome (codes "asp 1 0 0\n0\n6 1 7\n") ≡ refused_series 4 1 FaultKind.NoEnd }
    ensures short { series_outcome (codes "asp 1 0 0\n0\n6 2 7\n0\n") ≡ refused_series 3 4 (FaultKind.Integer (negsuc 2147483646) (pos 2147483647) NotNumber) }
    ensures rule { series_outcome (codes "asp 1 0 0\n0\n1 0 0 0 0\n0\n") ≡ refused_series 3 1 (FaultKind.Query (Value (pos 1))) }
    ensures word { series_outcome (codes "asp 1 0 0\n0\nx\n0\n") ≡ refused_series 3 1 (FaultKind.Query NotNumber) }
    ensures extra { series_outcome (codes "asp 1 0 0\n0\n6 1 7 8\n0\n") ≡ refused_series 3 4 FaultKind.ExtraFields }
    ensures after_end { series_outcome (codes "asp 1 0 0\n0\n0\n10 x\n") ≡ refused_series 4 1 FaultKind.AfterEnd }
    ensures no_header { series_outcome [] ≡ refused_series 1 1 FaultKind.Empty }
{}
