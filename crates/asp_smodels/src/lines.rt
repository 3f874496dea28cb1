// A line of a symbol, of an assumption, or of a section.
ghost use Rattle.std.specs.Prelude.{◌≡◌, ◌+◌, ◌≤◌, [], ◌∷◌, length, map, IfOk};
ghost use Rattle.asp_model.specs.Sets.{with_atoms};
ghost use Rattle.asp_model.specs.Holding.{atom_of};
ghost use Rattle.asp_read.specs.Gives.{Gives};
ghost use Rattle.asp_text.specs.Fields.{after_field};
ghost use Rattle.asp_read.specs.Fields.{alone, most_counted};
ghost use Rattle.asp_read.specs.Sizes.{statement_size, statement_atoms};
ghost use Rattle.asp_smodels.specs.Lines.{name_of, symbol_at, is_end, symbol_line, word_line, assumed_line, number_line};

use crate::parts::{literal_of, one_more};
use asp_model::program::Output;
use asp_model::seq::Seq;
use asp_read::error::{LineError, broken};
use asp_read::fault::FaultKind;
use asp_read::field::{ended, natural};
use asp_read::known::KnownAtoms;
use asp_read::statement::Statement;
use asp_read::statements::{is_number, is_word, owned};
use asp_text::split_field;
use std::alloc::{AllocError, Global};

// A name, behind one blank.
fn name(rest: &[u8]) -> Result<&[u8], LineError>
    ensures { Gives (λ name. name.now) result (name_of rest.now) }
{
    match rest {
        [_, name @ ..] if !name.is_empty() => Ok(name),
        _ => Err(broken(FaultKind::Name, rest)),
    }
}

// A list of one literal.
fn single(alloc: Global, literal: i32) -> Result<Seq<i32>, AllocError>
    ensures { IfOk result (λ list. list ≡ literal ∷ []) }
{
    Ok(Seq::from_vec(vec![in alloc; literal]?))
}

#[tactic(auto, unfolding(crate::specs::Lines::symbol_at))]
fn symbol(
    alloc: Global,
    line: &[u8],
    used: u32,
    known: &mut KnownAtoms,
) -> Result<Output, LineError>
    ensures output { Gives (λ o. o) result (symbol_at used known.old line.now) }
    ensures bound { IfOk result (λ o. used + length o.condition ≤ most_counted) }
    ensures known { IfOk result (λ o. known.new ≡ with_atoms known.old (map atom_of o.condition)) }
{
    let (atom, rest) = one_more(line, used, known)?;
    let name = name(rest)?;
    let text = owned(alloc, name)?;
    let condition = single(alloc, literal_of(atom, false))?;
    Ok(Output { text, condition })
}

// Whether a list ends with this line.
fn is_end(line: &[u8]) -> bool
    ensures { result ≡ is_end line.now }
{
    let (field, _) = split_field(line);
    is_number(field, 0)
}

// The end of a part, on a line that has no more fields.
fn end_of_part(line: &[u8]) -> Result<Statement, LineError>
    ensures { Gives (λ s. s) result (alone (Statement.End, after_field line.now)) }
{
    let (_, rest) = split_field(line);
    ended(rest)?;
    Ok(Statement::End)
}

/// What a line says where symbols stand.
#[tactic(auto, unfolding(crate::specs::Lines::symbol_line))]
pub fn symbol_line(
    alloc: Global,
    line: &[u8],
    used: u32,
    known: &mut KnownAtoms,
) -> Result<Statement, LineError>
    requires { used ≤ most_counted }
    ensures statement { Gives (λ s. s) result (symbol_line used known.old line.now) }
    ensures bound { IfOk result (λ s. used + statement_size s ≤ most_counted) }
    ensures known { IfOk result (λ s. known.new ≡ with_atoms known.old (statement_atoms s)) }
{
    if is_end(line) {
        return end_of_part(line);
    }
    let output = symbol(alloc, line, used, known)?;
    Ok(Statement::Output(output))
}

/// What a line says that is to begin a section.
#[tactic(auto, unfolding(crate::specs::Lines::word_line))]
pub fn word_line(line: &[u8], word: &[u8]) -> Result<Statement, LineError>
    ensures statement { Gives (λ s. s) result (word_line word.now line.now) }
    ensures end { IfOk result (λ s. s ≡ Statement.End) }
{
    let (field, _) = split_field(line);
    if !is_word(field, word) {
        return Err(broken(FaultKind::Section, line));
    }
    end_of_part(line)
}

/// What a line says where atoms stand that are assumed true or false.
#[tactic(auto, unfolding(crate::specs::Lines::assumed_line))]
pub fn assumed_line(
    alloc: Global,
    line: &[u8],
    negated: bool,
    used: u32,
    known: &mut KnownAtoms,
) -> Result<Statement, LineError>
    requires { used ≤ most_counted }
    ensures statement { Gives (λ s. s) result (assumed_line negated used known.old line.now) }
    ensures bound { IfOk result (λ s. used + statement_size s ≤ most_counted) }
    ensures known { IfOk result (λ s. known.new ≡ with_atoms known.old (statement_atoms s)) }
{
    if is_end(line) {
        return end_of_part(line);
    }
    let (atom, rest) = one_more(line, used, known)?;
    ended(rest)?;
    let literals = single(alloc, literal_of(atom, negated))?;
    Ok(Statement::Assume(literals))
}

/// What the last line says: how many answers are wanted, which isn't used.
#[tactic(auto, unfolding(crate::specs::Lines::number_line))]
pub fn number_line(line: &[u8]) -> Result<Statement, LineError>
    ensures statement { Gives (λ s. s) result (number_line line.now) }
    ensures end { IfOk result (λ s. s ≡ Statement.End) }
{
    let (field, _) = split_field(line);
    if is_word(field, b"E") {
        return Err(broken(FaultKind::Externals, line));
    }
    let (_, rest) = natural(line, 0, i32::MAX as u32)?;
    ended(rest)?;
    Ok(Statement::End)
}
