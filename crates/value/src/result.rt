// One numeric result of a table (D6): whether a segment row is one, and what its value says.
ghost use Rattle.std.specs.Prelude.{◌≡◌};
ghost use Rattle.laws.specs.Lists.{same};
ghost use Rattle.table.specs.Lent.{lent};
ghost use Rattle.value.specs.Numerals.{most_digits, numeral_of};
ghost use Rattle.look.specs.Looking.{says_text};
ghost use Rattle.look.specs.inner.Searching.{sought_in};
ghost use Rattle.value.specs.Results.{numeric_type, type_place, value_field, is_numeric, of_field, leaf_text_in};
ghost use Rattle.value.specs.inner.Said.{told};
ghost use Rattle.value.specs.inner.Seeking.{ResultRow, FieldRows, LeafRow, first_passing, result_of};

use crate::numeral::{NotSaid, Said, read_numeral};
use form::kind::Kind;
use look::leaf::{Place, Sought};
use table::{Card, rows};

// The field that has the type of an OBX (10.3), and the field that has its value (10.6).
const TYPE: rows::Entry = 3;

const VALUE: rows::Entry = 6;

// Whether a segment row, counted from 0, is a numeric result of an order: an OBX whose owner is the order's row, with the type NM.
pub(crate) fn is_numeric(
    card: Card,
    segments: &[rows::Entry],
    leaves: &[rows::Entry],
    text: &[u8],
    order: rows::Entry,
    row: usize,
) -> bool
    requires { ResultRow (lent card segments.now leaves.now text.now) row }
    ensures { result ≡ is_numeric (lent card segments.now leaves.now text.now) order row }
{
    let at = row * rows::SEGMENT_ROW;
    segments[at] == Kind::OBX as rows::Entry
        && segments[at + rows::OWNER] == order
        && has_numeric_type(card, segments, leaves, text, row)
}

// Whether leaf 10.3 of a segment row, counted from 0, is the type NM.
fn has_numeric_type(
    card: Card,
    segments: &[rows::Entry],
    leaves: &[rows::Entry],
    text: &[u8],
    row: usize,
) -> bool
    requires { ResultRow (lent card segments.now leaves.now text.now) row }
    ensures { result ≡ says_text text.now numeric_type (sought_in (lent card segments.now leaves.now text.now) (type_place row)) }
{
    let place = Place {
        segment: (row + 1) as rows::Entry,
        field: TYPE,
        repetition: 1,
        subfield: 1,
        subsubfield: 1,
    };
    match look::leaf::find_leaf_in_segment(card, segments, leaves, text, place) {
        Sought::At(start, length) => is_type(&text[start..start + length]),
        Sought::Empty | Sought::NotThere => false,
    }
}

// Whether a type is that of numbers.
fn is_type(text: &[u8]) -> bool
    ensures { result ≡ same text.now numeric_type }
{
    text == b"NM".as_slice()
}

// What the value of a result says, that of a segment row counted from 0: the text of field 10.6, where that is one leaf; else it is no number.
pub(crate) fn result_of(
    card: Card,
    segments: &[rows::Entry],
    leaves: &[rows::Entry],
    text: &[u8],
    row: usize,
) -> Result<Said, NotSaid>
    requires { ResultRow (lent card segments.now leaves.now text.now) row }
    ensures { told result ≡ result_of most_digits (lent card segments.now leaves.now text.now) row }
{
    let at = row * rows::SEGMENT_ROW;
    let from = rows::wide(segments[at + rows::FIRST]) - 1;
    let to = from + rows::wide(segments[at + rows::COUNT]);
    let segment = (row + 1) as rows::Entry;
    let Some(one) = first_of_field(leaves, from, to, segment) else {
        return Err(NotSaid::NotANumber);
    };
    match first_of_field(leaves, one + 1, to, segment) {
        None => leaf_says(leaves, text, one),
        Some(_) => Err(NotSaid::NotANumber),
    }
}

// What the text of a leaf row says, counted from 0.
fn leaf_says(leaves: &[rows::Entry], text: &[u8], row: usize) -> Result<Said, NotSaid>
    requires { LeafRow leaves.now text.now row }
    ensures { told result ≡ numeral_of most_digits (leaf_text_in leaves.now text.now row) }
{
    let at = row * rows::LEAF_ROW;
    let start = rows::wide(leaves[at + rows::START]);
    let end = start + rows::wide(leaves[at + rows::LENGTH]);
    read_numeral(&text[start..end])
}

// The first leaf row, of those from one on and before another, counted from 0, that belongs to
// field 10.6 of a segment.
fn first_of_field(
    leaves: &[rows::Entry],
    from: usize,
    to: usize,
    segment: rows::Entry,
) -> Option<usize>
    requires { FieldRows leaves.now from to }
    ensures { result ≡ first_passing (of_field leaves.now segment value_field) from to }
{
    for row in from..to {
        let at = row * rows::LEAF_ROW;
        if leaves[at + rows::FIELD] == VALUE && leaves[at] == segment {
            return Some(row);
        }
    }
    None
}
