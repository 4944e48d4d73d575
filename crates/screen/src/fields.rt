// The fields that must have a text (R1).
ghost use Rattle.std.specs.Prelude.{◌≡◌};
ghost use Rattle.table.specs.Lent.{lent};
ghost use Rattle.screen.specs.Refusals.{first_rule};
ghost use Rattle.screen.specs.inner.Rows.{first_code_rule, first_failed, ReportRow};

use crate::leaf::leaf_text;
use crate::refusal::Refusal;
use crate::wanted::WANTED;
use table::{Card, rows};

// The first of the rules of fields that a segment row, counted from 0, fails: it is of the field's
// kind and has no text there. None where it fails none of them.
pub(crate) fn first_unfilled(
    card: Card,
    segments: &[rows::Entry],
    leaves: &[rows::Entry],
    text: &[u8],
    row: usize,
) -> Option<u8>
    requires { ReportRow (lent card segments.now leaves.now text.now) row }
    ensures { result ≡ first_failed (lent card segments.now leaves.now text.now) row first_rule first_code_rule }
{
    let kind = segments[row * rows::SEGMENT_ROW];
    for (rule, asked) in WANTED.iter().enumerate() {
        if asked.kind == kind
            && leaf_text(
                card,
                segments,
                leaves,
                text,
                row,
                asked.field,
                asked.subfield,
            )
            .is_empty()
        {
            return Some(Refusal::NO_NAME + rule as u8);
        }
    }
    None
}
