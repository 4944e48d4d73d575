// Whether a reader gave an archived table (B2).
ghost use Rattle.std.specs.Prelude.{◌≡◌};
ghost use Rattle.form.specs.Forms.{small_form};
ghost use Rattle.table.specs.Lent.{lent};
ghost use Rattle.archive.specs.Widening.{ever_read};
ghost use Rattle.archive.specs.inner.Asked.{JustCounted};

use crate::Narrow;
use crate::putting::put_numbers;
use form::forms::{Form, SmallForm};
use table::{Card, rows};
use write::test;

// The rows of the small form's largest table.
const SEGMENTS: usize = SmallForm::SEGMENTS * rows::SEGMENT_ROW;

const LEAVES: usize = SmallForm::LEAVES * rows::LEAF_ROW;

// Yes exactly where some message reads to the table, by the owners in force or by the former ones. A card that counts more than the small form
// allows, or than the lent buffers hold, is a no before any row is looked at.
pub(crate) fn ever_read(card: Card, segments: &[Narrow], leaves: &[Narrow], text: &[u8]) -> bool
    ensures { result ≡ ever_read small_form (lent card segments.now leaves.now text.now) }
{
    rows::counts_fit(card, SEGMENTS, LEAVES, SmallForm::BYTES)
        && rows::counts_fit(card, segments.len(), leaves.len(), text.len())
        && read_by_either(
            card,
            &segments[..card.segments * rows::SEGMENT_ROW],
            &leaves[..card.leaves * rows::LEAF_ROW],
            text,
        )
}

// The same of a card that counts just these rows. The table test goes over rows as they are now, so they are put into such.
fn read_by_either(card: Card, segments: &[Narrow], leaves: &[Narrow], text: &[u8]) -> bool
    requires { JustCounted small_form (lent card segments.now leaves.now text.now) }
    ensures { result ≡ ever_read small_form (lent card segments.now leaves.now text.now) }
{
    let mut wide_segments = [0; SEGMENTS];
    let mut wide_leaves = [0; LEAVES];
    put_numbers(segments, &mut wide_segments);
    put_numbers(leaves, &mut wide_leaves);
    // kept (C): former_rule_only.edit edits this answer; at `||` only a name would refuse it
    if test::is_table(Form::Small, card, &wide_segments, &wide_leaves, text) {
        true
    } else {
        test::is_former_table(Form::Small, card, &wide_segments, &wide_leaves, text)
    }
}
