//! The outputs of a program in flat arrays.
ghost use Rattle.std.specs.Prelude.{◌≡◌, ◌<◌, [], ◌∷◌, ◌++◌, IfOk, OnOk, OnErr, length, slice_index_or};
ghost use Rattle.asp_model.specs.Views.{output_seen};

use crate::program::Output;
use asp_table::narrow::narrow;
use asp_table::table::Table;
use std::alloc::{AllocError, Global};
use std::marker::Model;

/// An output as it is read.
#[derive(Clone, Copy)]
pub struct OutputView<'a> {
    /// The bytes that are written.
    pub text: &'a [u8],
    /// Literals, all of which must hold.
    pub condition: &'a [i32],
}

/// Outputs one after another: each takes 12 bytes beside its text and its literals. Contracts see the list of the outputs.
#[derive(Drop)]
pub struct Outputs {
    /// By the output the row of its condition.
    rows: Vec<u32>,
    /// By the output its text.
    texts: Table<u8>,
    /// Conditions. There may be some that are of no output.
    conditions: Table<i32>,
}

impl Model for Outputs {
    ghost use Rattle.std.specs.Prelude.{List};
    ghost use Rattle.asp_model.specs.declared.program.Output.{Output};
    ghost use Rattle.asp_model.specs.Stored.{outputs_of, AreOutputsStored};

    ghost Value = { List Output };

    ghost view = { λ o. outputs_of o.conditions o.rows.items o.texts };

    ghost invariant = { λ o. AreOutputsStored o.conditions o.rows.items o.texts };
}

impl Output {
    /// The output as it is read.
    pub fn view(&self) -> OutputView<'_>
        ensures { output_seen result ≡ self.now }
    {
        OutputView {
            text: self.text.as_slice(),
            condition: self.condition.as_slice(),
        }
    }
}

impl Outputs {
    /// No outputs.
    pub fn new(alloc: Global) -> Result<Outputs, AllocError>
        ensures { IfOk result (λ outputs. outputs ≡ []) }
    {
        let texts = Table::new(alloc)?;
        let conditions = Table::new(alloc)?;
        Ok(Outputs {
            rows: Vec::new(alloc),
            texts,
            conditions,
        })
    }

    /// How many outputs there are.
    pub fn len(&self) -> usize
        ensures { result ≡ length self.now }
    {
        self.rows.len()
    }

    /// An output, counted from 0.
    pub fn output(&self, output: usize) -> OutputView<'_>
        requires { output < length self.now }
        ensures { output_seen result ≡ slice_index_or self.now output (output_seen result) }
    {
        let row = self.rows[output];
        OutputView {
            text: self.texts.row(output),
            condition: self.conditions.row(row as usize),
        }
    }

    /// One more output. Want of memory leaves all as it was, as do 4294967296 bytes or literals or more together.
    pub fn push(&mut self, output: OutputView<'_>) -> Result<(), AllocError>
        ensures ok { OnOk result (self.new ≡ self.old ++ output_seen output.entry ∷ []) }
        ensures err { OnErr result (self.new ≡ self.old) }
    {
        let row = narrow(self.conditions.len())?;
        self.rows.reserve(1)?;
        self.conditions.push_row(output.condition)?;
        self.texts.push_row(output.text)?;
        self.rows.push_reserved(row);
        Ok(())
    }

    /// These outputs.
    pub fn from_slice(alloc: Global, outputs: &[Output]) -> Result<Outputs, AllocError>
        ensures { IfOk result (λ same. same ≡ outputs.now) }
    {
        let mut same = Outputs::new(alloc)?;
        for output in outputs {
            same.push(output.view())?;
        }
        Ok(same)
    }
}
