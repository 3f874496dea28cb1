ghost use Rattle.std.specs.Prelude.{◌≡◌, ◌+◌, ◌-◌, ◌<◌, ◌≤◌, ◌++◌, [], length, take, drop, OnOk, OnErr, IfSome, None, is_some, if◌then◌else◌, count_by, option_to_list};
ghost use Rattle.std.specs.List.{position, position_or_len};
ghost use Rattle.std.specs.Option.{option_map};
ghost use Rattle.std.specs.Borrow.{sem};
ghost use Rattle.std.specs.Io.BufRead.{Rests};
ghost use Rattle.asp_text.specs.Lines.{is_lf, without_cr, cut, first_line, after_line, last_line, tail};
ghost use Rattle.asp_text.specs.Unread.{most_bytes};
ghost use Rattle.asp_text.specs.contracts.lines.Lines.{the_row};

use std::alloc::{AllocError, Global};
use std::marker::Model;

/// A line, without its line feed and the one carriage return before it.
#[derive(Clone, Copy, Debug, PartialEq, Eq)]
pub struct Line<'a> {
    /// Counted from 1.
    pub number: u32,
    /// What stands on it.
    pub bytes: &'a [u8],
}

/// The lines of a text that comes in pieces. It holds the bytes that no line was made of yet.
#[derive(Drop)]
pub struct Lines {
    /// Bytes that came and may not be used up.
    held: Vec<u8>,
    /// So many bytes of `held` are used up.
    start: usize,
    /// So many bytes behind those are known to have no line feed.
    clear: usize,
    /// How many lines were given.
    given: u32,
    /// How many bytes came.
    fed: u32,
}

impl Model for Lines {
    ghost use Rattle.asp_text.specs.Unread.{Unread};

    ghost Value = { Unread };

    ghost use Rattle.std.specs.Prelude.{drop};
    ghost use Rattle.asp_text.specs.Held.{IsHeld};

    ghost view = { λ l. record { bytes = drop l.start l.held.items; given = l.given; fed = l.fed } };

    ghost invariant = { λ l. IsHeld l.held.items l.start l.clear l.given l.fed };
}

impl Lines {
    /// Before the first piece. It takes no memory.
    pub fn new(alloc: Global) -> Self
        ensures { result ≡ record { bytes = []; given = 0; fed = 0 } }
    {
        Lines {
            held: Vec::new(alloc),
            start: 0,
            clear: 0,
            given: 0,
            fed: 0,
        }
    }

    /// How many lines were taken.
    pub fn count(&self) -> u32
        ensures count { result ≡ self.now.given }
        ensures bound { result ≤ most_bytes }
    {
        self.given
    }

    // Lets go of the lines that were taken. They are at least as many bytes as are moved, so that no byte is
    // moved more than once on average, however the pieces are cut.
    fn forget_taken(&mut self)
        ensures { self.new ≡ self.old }
    {
        let left = self.held.len() - self.start;
        if left <= self.start {
            self.held.copy_within(self.start.., 0);
            self.held.truncate(left);
            self.start = 0;
        }
    }

    /// Takes the next piece of the text. An error leaves everything as it was.
    pub fn feed(&mut self, piece: &[u8]) -> Result<(), AllocError>
        requires { self.old.fed + length piece.now ≤ most_bytes }
        ensures ok { OnOk result (self.new ≡ record self.old { bytes = self.old.bytes ++ piece.now; fed = self.old.fed + length piece.now }) }
        ensures err { OnErr result (self.new ≡ self.old) }
    {
        self.forget_taken();
        self.held.extend_from_slice(piece)?;
        self.fed += piece.len() as u32;
        Ok(())
    }

    /// The next line whose line feed has come.
    pub fn next_line(&mut self) -> Option<Line<'_>>
        ensures line { option_map (λ l. l.bytes.now) result ≡ first_line self.old.bytes }
        ensures number { IfSome result (λ l. l.number ≡ self.old.given + 1) }
        ensures bound { IfSome result (λ l. l.number ≤ most_bytes) }
        ensures* after { sem 𝓛 (Rests the_row self.entry (λ new. new ≡ record self.old { bytes = after_line self.old.bytes; given = if is_some result then self.old.given + 1 else self.old.given })) }
    {
        match line_end(&self.held[self.start..], self.clear) {
            None => {
                self.clear = self.held.len() - self.start;
                None
            }
            Some(end) => {
                let start = self.start;
                self.start += end + 1;
                self.clear = 0;
                self.given += 1;
                Some(Line {
                    number: self.given,
                    bytes: trimmed(&self.held[start..start + end]),
                })
            }
        }
    }

    // Takes all lines whose line feed has come.
    fn pass_lines(&mut self)
        ensures { self.new ≡ record self.old { bytes = tail self.old.bytes; given = self.old.given + count_by is_lf self.old.bytes } }
    {
        while let Some(_line) = self.next_line() {}
    }

    /// What follows the last line feed, as the last line of the text; none where nothing follows it. Whole lines
    /// that weren't taken before are passed over.
    pub fn finish(&mut self) -> Option<Line<'_>>
        ensures line { option_map (λ l. l.bytes.now) result ≡ last_line (tail self.old.bytes) }
        ensures number { IfSome result (λ l. l.number ≡ self.old.given + count_by is_lf self.old.bytes + 1) }
        ensures bound { IfSome result (λ l. l.number ≤ most_bytes) }
        ensures* after { sem 𝓛 (Rests the_row self.entry (λ new. new ≡ record self.old { bytes = []; given = self.old.given + count_by is_lf self.old.bytes + length (option_to_list result) })) }
    {
        self.pass_lines();
        let start = self.start;
        if start == self.held.len() {
            return None;
        }
        self.start = self.held.len();
        self.clear = 0;
        self.given += 1;
        Some(Line {
            number: self.given,
            bytes: trimmed(&self.held[start..]),
        })
    }
}

fn first_lf(text: &[u8]) -> Option<usize>
    ensures { result ≡ position is_lf text.now }
{
    text.iter().position(|b| *b == b'\n')
}

// Where the first line ends. No line feed stands among the first `clear` bytes.
fn line_end(text: &[u8], clear: usize) -> Option<usize>
    requires { clear ≤ position_or_len is_lf text.now }
    ensures cut { option_map (λ n. (take n text.now, drop (n + 1) text.now)) result ≡ cut text.now }
    ensures bound { IfSome result (λ n. n < length text.now) }
{
    match first_lf(&text[clear..]) {
        None => None,
        Some(n) => Some(clear + n),
    }
}

fn trimmed(line: &[u8]) -> &[u8]
    ensures { result.now ≡ without_cr line.now }
{
    match line {
        [front @ .., b'\r'] => front,
        _ => line,
    }
}
