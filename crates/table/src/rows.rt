// The layout of a table's rows (rules T1 to T3): how many numbers a row has, which stands where, and how wide each is. Whoever reads or
// writes a row names these.
ghost use Rattle.std.specs.Prelude.{◌≡◌, ◌<◌};
ghost use Rattle.table.specs.Rows.{width};
ghost use Rattle.table.specs.Lent.{counts_fit};

use crate::Card;
use order::owners::Row;

// One number of a row. An owner is a row's number, so all numbers have that one's width (T1).
pub type Entry = Row;

// A segment row has four numbers (T2): the kind stands first, then these.
pub const SEGMENT_ROW: usize = 4;

pub const OWNER: usize = 1;

pub const FIRST: usize = 2;

pub const COUNT: usize = 3;

// A leaf row has seven numbers (T3), in the order of the names below.
pub const LEAF_ROW: usize = 7;

pub const SEGMENT: usize = 0;

pub const FIELD: usize = 1;

pub const REPETITION: usize = 2;

pub const SUBFIELD: usize = 3;

pub const SUBSUBFIELD: usize = 4;

pub const START: usize = 5;

pub const LENGTH: usize = 6;

// A number of a row as a count, which is below 4,294,967,296 (T1).
pub fn wide(number: Entry) -> usize
    ensures { (result ≡ number) × (result < width) }
{
    number as usize
}

// Whether the rows and the text that a card counts fit buffers of these lengths (F1, W4). The lengths are divided, since a count may be
// anything and its product with a row's size may not fit a number. The leaves come last: compiled so, a search of the leaf rows that follows
// has an instruction less in its loop.
pub fn counts_fit(card: Card, segments: usize, leaves: usize, text: usize) -> bool
    ensures { result ≡ counts_fit card segments leaves text }
{
    if segments / SEGMENT_ROW < card.segments {
        return false;
    }
    if text < card.text {
        return false;
    }
    card.leaves <= leaves / LEAF_ROW
}
