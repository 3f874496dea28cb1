//! Laws of the definitions. Each function's contract is a law, and its body is empty.
ghost use Rattle.std.specs.Prelude.{◌≡◌, ℕ, List, Some};
ghost use Rattle.asp_json.specs.Quoting.{quoted, unquoted};

/// A text that was put in quotes is read back as it was.
pub fn quoted_text_is_read_back()
    ensures { (text : List ℕ) → unquoted (quoted text) ≡ Some text }
{}
