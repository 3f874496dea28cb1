//! Texts of fields and statements, appended one by one.
ghost use Rattle.std.specs.Prelude.{◌≡◌, ◌++◌, ◌∷◌, List, ℕ, flat_map, OnOk};
ghost use Rattle.asp_model.specs.Views.{head_seen, body_seen, rule_seen, output_seen};
ghost use Rattle.asp_make.specs.Texts.{natural_field, integer_field, weighted_fields, counted_fields, head_fields, body_fields, external_field};
ghost use Rattle.asp_make.specs.Texts.{assumptions_text, line, rule_text, minimize_text, output_text, external_text};

use asp_model::outputs::{OutputView, Outputs};
use asp_model::program::{External, ExternalValue, Minimize};
use asp_model::rules::Rules;
use asp_model::seq::Seq;
use asp_model::view::{BodyView, HeadView, RuleView};
use itoa::{Buffer, Integer};
use std::alloc::AllocError;

/// What has a text of its own in a program's text: a field with the blank before it, or a whole line.
pub trait Written {
    /// The text.
    ghost text: { Self → List ℕ };

    /// Appends the text.
    fn write(&self, out: &mut Vec<u8>) -> Result<(), AllocError>
        ensures { OnOk result (out.new.items ≡ out.old.items ++ text self.now) };
}

/// Appends the texts one after another.
pub fn write_each<W: Written>(entries: &[W], out: &mut Vec<u8>) -> Result<(), AllocError>
    ensures { OnOk result (out.new.items ≡ out.old.items ++ flat_map W.text entries.now) }
{
    for entry in entries {
        entry.write(out)?;
    }
    Ok(())
}

/// Appends a blank and the number.
pub fn write_number<I: Integer>(number: I, out: &mut Vec<u8>) -> Result<(), AllocError>
    ensures { OnOk result (out.new.items ≡ out.old.items ++ 32 ∷ I.text number) }
{
    out.extend_from_slice(b" ")?;
    out.extend_from_slice(Buffer::new().format(number).as_bytes())
}

/// Appends how many entries there are, and their texts.
pub fn write_counted<W: Written>(entries: &[W], out: &mut Vec<u8>) -> Result<(), AllocError>
    ensures { OnOk result (out.new.items ≡ out.old.items ++ counted_fields W.text entries.now) }
{
    write_number(entries.len(), out)?;
    write_each(entries, out)
}

impl Written for u32 {
    ghost text = { natural_field };

    fn write(&self, out: &mut Vec<u8>) -> Result<(), AllocError> {
        write_number(*self, out)
    }
}

impl Written for i32 {
    ghost text = { integer_field };

    fn write(&self, out: &mut Vec<u8>) -> Result<(), AllocError> {
        write_number(*self, out)
    }
}

impl Written for (i32, i32) {
    ghost text = { weighted_fields };

    fn write(&self, out: &mut Vec<u8>) -> Result<(), AllocError> {
        write_number(self.0, out)?;
        write_number(self.1, out)
    }
}

impl Written for ExternalValue {
    ghost text = { external_field };

    fn write(&self, out: &mut Vec<u8>) -> Result<(), AllocError> {
        match self {
            ExternalValue::Free => out.extend_from_slice(b" 0"),
            ExternalValue::True => out.extend_from_slice(b" 1"),
            ExternalValue::False => out.extend_from_slice(b" 2"),
            ExternalValue::Release => out.extend_from_slice(b" 3"),
        }
    }
}

fn write_head(head: HeadView<'_>, out: &mut Vec<u8>) -> Result<(), AllocError>
    ensures { OnOk result (out.new.items ≡ out.old.items ++ head_fields (head_seen head.entry)) }
{
    match head {
        HeadView::One(atom) => {
            out.extend_from_slice(b" 0 1")?;
            write_number(atom, out)
        }
        HeadView::Choice(atoms) => {
            out.extend_from_slice(b" 1")?;
            write_counted(atoms, out)
        }
        HeadView::Never => out.extend_from_slice(b" 0 0"),
    }
}

fn write_body(body: BodyView<'_>, out: &mut Vec<u8>) -> Result<(), AllocError>
    ensures { OnOk result (out.new.items ≡ out.old.items ++ body_fields (body_seen body.entry)) }
{
    match body {
        BodyView::All(literals) => {
            out.extend_from_slice(b" 0")?;
            write_counted(literals, out)
        }
        BodyView::AtLeast(bound, items) => {
            out.extend_from_slice(b" 1")?;
            write_number(bound, out)?;
            write_counted(items, out)
        }
    }
}

// Appends a rule in a line of its own.
fn write_rule(rule: RuleView<'_>, out: &mut Vec<u8>) -> Result<(), AllocError>
    ensures { OnOk result (out.new.items ≡ out.old.items ++ line (rule_text (rule_seen rule.entry))) }
{
    out.extend_from_slice(b"1")?;
    write_head(rule.head, out)?;
    write_body(rule.body, out)?;
    out.extend_from_slice(b"\n")
}

/// Appends rules, each in a line of its own.
pub fn write_rules(rules: &Rules, out: &mut Vec<u8>) -> Result<(), AllocError>
    ensures { OnOk result (out.new.items ≡ out.old.items ++ flat_map (λ r. line (rule_text r)) rules.now) }
{
    for i in 0..rules.len() {
        write_rule(rules.rule(i), out)?;
    }
    Ok(())
}

impl Written for Minimize {
    ghost text = { λ m. line (minimize_text m) };

    fn write(&self, out: &mut Vec<u8>) -> Result<(), AllocError> {
        out.extend_from_slice(b"2")?;
        write_number(self.priority, out)?;
        write_counted(self.items.as_slice(), out)?;
        out.extend_from_slice(b"\n")
    }
}

// Appends an output in a line of its own.
fn write_output(output: OutputView<'_>, out: &mut Vec<u8>) -> Result<(), AllocError>
    ensures { OnOk result (out.new.items ≡ out.old.items ++ line (output_text (output_seen output.entry))) }
{
    let text = output.text;
    out.extend_from_slice(b"4")?;
    write_number(text.len(), out)?;
    out.extend_from_slice(b" ")?;
    out.extend_from_slice(text)?;
    write_counted(output.condition, out)?;
    out.extend_from_slice(b"\n")
}

/// Appends outputs, each in a line of its own.
pub fn write_outputs(outputs: &Outputs, out: &mut Vec<u8>) -> Result<(), AllocError>
    ensures { OnOk result (out.new.items ≡ out.old.items ++ flat_map (λ o. line (output_text o)) outputs.now) }
{
    for i in 0..outputs.len() {
        write_output(outputs.output(i), out)?;
    }
    Ok(())
}

impl Written for External {
    ghost text = { λ e. line (external_text e) };

    fn write(&self, out: &mut Vec<u8>) -> Result<(), AllocError> {
        out.extend_from_slice(b"5")?;
        write_number(self.atom, out)?;
        self.value.write(out)?;
        out.extend_from_slice(b"\n")
    }
}

impl Written for Seq<i32> {
    ghost text = { λ cube. line (assumptions_text cube) };

    fn write(&self, out: &mut Vec<u8>) -> Result<(), AllocError> {
        out.extend_from_slice(b"6")?;
        write_counted(self.as_slice(), out)?;
        out.extend_from_slice(b"\n")
    }
}
