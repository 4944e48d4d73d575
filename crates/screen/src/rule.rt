// Which rule a row fails first: a result by its value; any other row by its fields, and then a
// patient by the codes of its results.
ghost use Rattle.std.specs.Prelude.{◌≡◌};
ghost use Rattle.table.specs.Lent.{lent};
ghost use Rattle.screen.specs.Refusals.{first_rule};
ghost use Rattle.screen.specs.inner.Rows.{past_rules, first_failed, ReportRow};

use crate::codes::first_miscounted;
use crate::fields::first_unfilled;
use crate::values::first_misvalued;
use form::kind::Kind;
use table::{Card, rows};

// The lowest rule, by its number, that a segment row, counted from 0, fails. None where it keeps
// all of them.
pub(crate) fn first_failed(
    card: Card,
    segments: &[rows::Entry],
    leaves: &[rows::Entry],
    text: &[u8],
    row: usize,
) -> Option<u8>
    requires { ReportRow (lent card segments.now leaves.now text.now) row }
    ensures { result ≡ first_failed (lent card segments.now leaves.now text.now) row first_rule past_rules }
{
    let kind = segments[row * rows::SEGMENT_ROW];
    if kind == Kind::OBX as rows::Entry {
        // most rows are results, and no field is asked of them
        first_misvalued(card, segments, leaves, text, row)
    } else if kind == Kind::P as rows::Entry {
        first_unfilled(card, segments, leaves, text, row).or_else(|| first_miscounted(
            card, segments, leaves, text, row,
        ))
    } else {
        first_unfilled(card, segments, leaves, text, row)
    }
}
