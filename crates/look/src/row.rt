// The row finder (F2).
ghost use Rattle.std.specs.Prelude.{◌≡◌};
ghost use Rattle.look.specs.Looking.{segments_fit};
ghost use Rattle.look.specs.inner.Searching.{row_after};

use table::{Card, rows};

// The number of the next row that has a kind and an owner, behind row `after`, or from row 1 on where that is 0 (F2). 0 where there is
// none, or where the segment rows are fewer than the card counts.
// kept (C): a number and no Option, since `row_after` in this public function's clause says 0 for none.
pub fn next_row(
    card: Card,
    segments: &[rows::Entry],
    after: usize,
    kind: rows::Entry,
    owner: rows::Entry,
) -> usize
    ensures { result ≡ row_after segments.now card.segments after kind owner }
{
    if !segments_fit(segments, card.segments) {
        return 0;
    }
    for row in after..card.segments {
        let at = row * rows::SEGMENT_ROW;
        if segments[at] == kind && segments[at + rows::OWNER] == owner {
            return row + 1;
        }
    }
    0
}

// Whether so many rows are within the segment rows. Division, since a count may be anything and its product may not fit a number.
pub(crate) fn segments_fit(segments: &[rows::Entry], count: usize) -> bool
    ensures { result ≡ segments_fit segments.now count }
{
    count <= segments.len() / rows::SEGMENT_ROW
}
