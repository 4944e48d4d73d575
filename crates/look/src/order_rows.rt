// The same-order test (F3).
ghost use Rattle.std.specs.Prelude.{◌≡◌};
ghost use Rattle.table.specs.Lent.{lent};
ghost use Rattle.look.specs.Looking.{is_order};
ghost use Rattle.look.specs.inner.Searching.{same_order};
ghost use Rattle.look.specs.inner.Ordering.{order_text};

use crate::leaf;
use crate::leaf::{Place, Sought};
use crate::row::segments_fit;
use crate::text::same_bytes;
use form::kind::Kind;
use table::{Card, rows};

// Whether a row of one table and a row of another are the same order (F3): two OBR whose leaf 9.4.2 is there, is not empty, and has equal bytes.
// Row 0 and a row past the count are no orders.
pub fn same_order(
    card: Card,
    segments: &[rows::Entry],
    leaves: &[rows::Entry],
    text: &[u8],
    row: rows::Entry,
    other_card: Card,
    other_segments: &[rows::Entry],
    other_leaves: &[rows::Entry],
    other_text: &[u8],
    other_row: rows::Entry,
) -> bool
    ensures { result
        ≡ same_order (lent card segments.now leaves.now text.now) row
        (lent other_card other_segments.now other_leaves.now other_text.now) other_row }
{
    let Sought::At(start, length) = order_text(card, segments, leaves, text, row) else {
        return false;
    };
    let other = order_text(
        other_card,
        other_segments,
        other_leaves,
        other_text,
        other_row,
    );
    let Sought::At(other_start, other_length) = other else {
        return false;
    };
    same_bytes(
        &text[start..start + length],
        &other_text[other_start..other_start + other_length],
    )
}

// Where the text of leaf 9.4.2 of an order lies; a row that is no OBR has none.
fn order_text(
    card: Card,
    segments: &[rows::Entry],
    leaves: &[rows::Entry],
    text: &[u8],
    row: rows::Entry,
) -> Sought
    ensures { result ≡ order_text (lent card segments.now leaves.now text.now) row }
{
    if !is_order(segments, card.segments, row) {
        return Sought::NotThere;
    }
    let place = Place {
        segment: row,
        field: 4,
        repetition: 1,
        subfield: 2,
        subsubfield: 1,
    };
    leaf::find_leaf(card, segments, leaves, text, place)
}

// Whether a row is one of so many counted rows and an OBR. Row 0, a row past the count, and a count past the segment rows are no.
pub fn is_order(segments: &[rows::Entry], count: usize, row: rows::Entry) -> bool
    ensures { result ≡ is_order segments.now count row }
{
    let number = row as usize;
    segments_fit(segments, count)
        && number >= 1
        && number <= count
        && segments[(number - 1) * rows::SEGMENT_ROW] == Kind::OBR as rows::Entry
}
