//! What the policy counts of the answers that wait. No contract speaks of this.
use asp_rows::bits::Bit;
use asp_rows::row::Row;
use std::collections::BTreeSet;

/// Whether the row has the bit.
pub(crate) fn is_set(row: &Row, bit: Bit) -> bool {
    let words = row.words.as_slice();
    if bit.word < words.len() && bit.behind < 64 {
        (words[bit.word] >> bit.behind) % 2 == 1
    } else {
        false
    }
}

/// How many of the first rows lack the bit.
pub(crate) fn count_without(rows: &BTreeSet<Row>, bit: Bit) -> usize {
    let mut count: usize = 0;
    for row in rows {
        if is_set(row, bit) {
            return count;
        }
        count = count.saturating_add(1);
    }
    count
}

/// The last of the first so many rows, if there are as many.
pub(crate) fn nth(rows: &BTreeSet<Row>, count: usize) -> Option<&Row> {
    let mut left = count;
    for row in rows {
        if left == 1 {
            return Some(row);
        }
        left = left.saturating_sub(1);
    }
    None
}
