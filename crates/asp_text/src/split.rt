ghost use Rattle.std.specs.Prelude.{◌≡◌, ◌≤◌, length};
ghost use Rattle.std.specs.List.{position, position_or_len};
ghost use Rattle.asp_text.specs.FieldsLeft.{fields_left};
ghost use Rattle.asp_text.specs.Fields.{fields_of, is_blank, is_filled, unblank, field_of, after_field};

/// A space or a tab.
pub fn is_blank(b: u8) -> bool
    ensures { result ≡ is_blank b }
{
    b == b' ' || b == b'\t'
}

fn first_filled(line: &[u8]) -> Option<usize>
    ensures { result ≡ position is_filled line.now }
{
    line.iter().position(|b| !is_blank(*b))
}

fn first_blank(line: &[u8]) -> Option<usize>
    ensures { result ≡ position is_blank line.now }
{
    line.iter().position(|b| is_blank(*b))
}

#[tactic(auto, using(crate::proofs::Found::found))]
fn blanks(line: &[u8]) -> usize
    ensures count { result ≡ position_or_len is_filled line.now }
    ensures bound { result ≤ length line.now }
{
    first_filled(line).unwrap_or(line.len())
}

#[tactic(auto, using(crate::proofs::Found::found))]
fn filled(line: &[u8]) -> usize
    ensures count { result ≡ position_or_len is_blank line.now }
    ensures bound { result ≤ length line.now }
{
    first_blank(line).unwrap_or(line.len())
}

/// The line from its first byte that is no blank.
pub fn unblank(line: &[u8]) -> &[u8]
    ensures { result.now ≡ unblank line.now }
{
    line.split_at(blanks(line)).1
}

/// The first field of the line, empty where there is none, and what follows it.
pub fn split_field(line: &[u8]) -> (&[u8], &[u8])
    ensures field { result.0.now ≡ field_of line.now }
    ensures rest { result.1.now ≡ after_field line.now }
{
    let line = unblank(line);
    line.split_at(filled(line))
}

/// The fields of a line, from the left.
#[derive(Clone, Copy, Debug)]
pub struct LineFields<'a> {
    /// The bytes of which no field was made yet.
    rest: &'a [u8],
}

/// The fields of a line, from the left.
pub fn fields(line: &[u8]) -> LineFields<'_>
    ensures { fields_left result ≡ fields_of line.now }
{
    LineFields { rest: line }
}

impl<'a> Iterator for LineFields<'a> {
    ghost use Rattle.std.specs.Iterator.{YieldsFirstRef, item_count};
    ghost use Rattle.asp_text.specs.FieldsLeft.{fields_left};

    type Item = &'a [u8];

    ghost next_gives = { YieldsFirstRef fields_left };

    ghost remaining = { item_count fields_left };

    fn next(&mut self) -> Option<&'a [u8]> {
        let (field, rest) = split_field(self.rest);
        self.rest = rest;
        if field.is_empty() {
            return None;
        }
        Some(field)
    }
}
