//! How results are written.
use asp_cli::Form;

/// How the results are written.
#[derive(Clone, Copy)]
pub struct Layout {
    /// Their form.
    pub form: Form,
    /// Whether the answers are left out.
    pub brief: bool,
    /// Whether lines tell consequences by name.
    pub names: bool,
}
