//! The canonical text of a program.
ghost use Rattle.std.specs.Prelude.{◌≡◌, ◌++◌, IfOk, OnOk};
ghost use Rattle.asp_make.specs.Texts.{assumptions_line, parts_text, text_of};

use crate::written::{write_counted, write_each, write_outputs, write_rules};
use asp_model::program::Program;
use asp_model::seq::Seq;
use std::alloc::{AllocError, Global};

// One statement of all assumptions, where there is any.
fn write_assumptions(literals: &[i32], out: &mut Vec<u8>) -> Result<(), AllocError>
    ensures { OnOk result (out.new.items ≡ out.old.items ++ assumptions_line literals.now) }
{
    match literals {
        [] => Ok(()),
        _ => {
            out.extend_from_slice(b"6")?;
            write_counted(literals, out)?;
            out.extend_from_slice(b"\n")
        }
    }
}

/// The canonical text of a program in aspif 1.0: the header, rules, minimize, output and external statements, each in
/// their order, one statement of all assumptions, and the end.
pub fn emit(alloc: Global, program: &Program) -> Result<Vec<u8>, AllocError>
    ensures { IfOk result (λ text. text.items ≡ text_of program.now) }
{
    let mut out = Vec::new(alloc);
    out.extend_from_slice(b"asp 1 0 0\n")?;
    write_rules(&program.rules, &mut out)?;
    write_each(program.minimize.as_slice(), &mut out)?;
    write_outputs(&program.outputs, &mut out)?;
    write_each(program.externals.as_slice(), &mut out)?;
    write_assumptions(program.assumptions.as_slice(), &mut out)?;
    out.extend_from_slice(b"0\n")?;
    Ok(out)
}

/// The text of a program's parts: for each cube a statement of its literals as assumptions, in a line of its own.
pub fn emit_parts(alloc: Global, cubes: &[Seq<i32>]) -> Result<Vec<u8>, AllocError>
    ensures { IfOk result (λ text. text.items ≡ parts_text cubes.now) }
{
    let mut out = Vec::new(alloc);
    write_each(cubes, &mut out)?;
    Ok(out)
}
