// The leaves of a row by their names (S5): the text of one, whether it is a given text, whether it
// is a letter.
ghost use Rattle.std.specs.Prelude.{◌≡◌};
ghost use Rattle.table.specs.Lent.{lent};
ghost use Rattle.screen.specs.Meeting.{leaf_is, is_letter};
ghost use Rattle.screen.specs.inner.Rows.{text_in, ReportRow, AskedText};

use look::leaf::{Place, Sought};
use look::text::same_bytes;
use table::{Card, rows};

// The text of a leaf of a segment row, counted from 0, by its field and subfield; no byte where the
// leaf is empty or not there. It is sought among the row's own leaves, which in a table that some
// message reads to gives what the lookup gives.
pub(crate) fn leaf_text<'a>(
    card: Card,
    segments: &[rows::Entry],
    leaves: &[rows::Entry],
    text: &'a [u8],
    row: usize,
    field: rows::Entry,
    subfield: rows::Entry,
) -> &'a [u8]
    requires { ReportRow (lent card segments.now leaves.now text.now) row }
    ensures { result.now ≡ text_in (lent card segments.now leaves.now text.now) row field subfield }
{
    let place = Place {
        segment: (row + 1) as rows::Entry,
        field,
        repetition: 1,
        subfield,
        subsubfield: 1,
    };
    match look::leaf::find_leaf_in_segment(card, segments, leaves, text, place) {
        Sought::At(start, length) => &text[start..start + length],
        Sought::Empty | Sought::NotThere => &[],
    }
}

// Whether a leaf is there with just this text, which has a byte at least.
pub(crate) fn leaf_says(
    card: Card,
    segments: &[rows::Entry],
    leaves: &[rows::Entry],
    text: &[u8],
    row: usize,
    field: rows::Entry,
    subfield: rows::Entry,
    wanted: &[u8],
) -> bool
    requires { AskedText (lent card segments.now leaves.now text.now) row wanted.now }
    ensures { result ≡ leaf_is (lent card segments.now leaves.now text.now) row field subfield wanted.now }
{
    // kept (proof): the theorems that shut out a wrong comparing are about `same_bytes`
    same_bytes(
        leaf_text(card, segments, leaves, text, row, field, subfield),
        wanted,
    )
}

// Whether a text is one of these letters.
pub(crate) fn is_letter(text: &[u8], letters: &[u8]) -> bool
    ensures { result ≡ is_letter letters.now text.now }
{
    match text {
        [letter] => letters.contains(letter),
        _ => false,
    }
}
