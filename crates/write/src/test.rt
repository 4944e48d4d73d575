// The table test (W4): whether some message within the limits reads to a table, and how many bytes
// are written for it.
ghost use Rattle.std.specs.Prelude.{◌≡◌};
ghost use Rattle.form.specs.Forms.{limits_of};
ghost use Rattle.order.specs.Owners.{level, former_level};
ghost use Rattle.order.specs.inner.Levels.{level_in};
ghost use Rattle.write.specs.inner.ReadsBack.{is_table};
ghost use Rattle.table.specs.Lent.{lent, within_limits};
ghost use Rattle.write.specs.inner.Tests.{Decides, SoundRows, table_with, of_counts, size_back, lent_size, sound_leaves, in_order};
ghost use Rattle.write.specs.inner.Asked.{Testable, CountedTable, RowsAsked, LaidOut, KindsAndLeaves};

use crate::leaf_rows::Leaves;
use crate::segment_rows::Segments;
use crate::size;
use crate::size::Owners;
use form::forms::Form;
use form::limits::Limits;
use order::followers;
use table::rows::Entry;
use table::{Card, rows};

// Yes exactly where some message within the form's limits reads to the table that the card counts
// in the lent buffers, whatever these hold (W4).
pub fn is_table(form: Form, card: Card, segments: &[Entry], leaves: &[Entry], text: &[u8]) -> bool
    ensures { result ≡ is_table (limits_of form) level (lent card segments.now leaves.now text.now) }
{
    size::bytes_by(form, Owners::InForce, card, segments, leaves, text).is_some()
}

// The same with the former owners (O4): whether a reader gave the table while they were in force.
pub fn is_former_table(
    form: Form,
    card: Card,
    segments: &[Entry],
    leaves: &[Entry],
    text: &[u8],
) -> bool
    ensures { result ≡ is_table (limits_of form) former_level (lent card segments.now leaves.now text.now) }
{
    size::bytes_by(form, Owners::Former, card, segments, leaves, text).is_some()
}

// The bytes that are written for a table under any limits and levels, if some message within them
// reads to it.
pub(crate) fn table_bytes(
    limits: Limits,
    levels: &[u8; 84],
    card: Card,
    segments: &[Entry],
    leaves: &[Entry],
    text: &[u8],
) -> Option<usize>
    requires { Testable limits (level_in levels.now) }
    ensures { result ≡ lent_size limits (level_in levels.now) (lent card segments.now leaves.now text.now) }
{
    if !within_limits(limits, card) {
        return None;
    }
    if !rows::counts_fit(card, segments.len(), leaves.len(), text.len()) {
        return None;
    }
    let many = card.segments * rows::SEGMENT_ROW;
    let size = card.leaves * rows::LEAF_ROW;
    let segments = Segments {
        rows: &segments[..many],
        count: card.segments,
    };
    let leaves = Leaves {
        rows: &leaves[..size],
        text: &text[..card.text],
        count: card.leaves,
    };
    counted_bytes(limits, levels, card, segments, leaves)
}

// Whether a card's counts keep to the limits (T6).
fn within_limits(limits: Limits, card: Card) -> bool
    ensures { result ≡ within_limits limits card }
{
    card.segments <= limits.segments && card.leaves <= limits.leaves && card.text <= limits.bytes
}

// The bytes that are written for the table of the counted entries, if some message reads to it. All
// tests but the last are one call, so that few branches stand before the count of bytes: behind
// many the compiler would leave it a call of its own.
fn counted_bytes(
    limits: Limits,
    levels: &[u8; 84],
    card: Card,
    segments: Segments,
    leaves: Leaves,
) -> Option<usize>
    requires { CountedTable limits (level_in levels.now)
        (table_with (of_counts card segments.count leaves.count) segments.rows.now leaves.rows.now leaves.text.now) }
    ensures { result ≡ size_back limits (level_in levels.now)
        (table_with (of_counts card segments.entry.count leaves.entry.count)
        segments.entry.rows.now leaves.entry.rows.now leaves.entry.text.now) }
{
    if !sound_rows(levels, card, segments, leaves) {
        return None;
    }
    let bytes = segments.message_bytes(limits, leaves);
    if bytes <= limits.bytes {
        Some(bytes)
    } else {
        None
    }
}

// Whether the counted rows and the text pass every test but that of the message's bytes.
fn sound_rows(levels: &[u8; 84], card: Card, segments: Segments, leaves: Leaves) -> bool
    requires { RowsAsked (level_in levels.now)
        (table_with (of_counts card segments.count leaves.count) segments.rows.now leaves.rows.now leaves.text.now) }
    ensures { Decides result (SoundRows (level_in levels.now)
        (table_with (of_counts card segments.entry.count leaves.entry.count)
        segments.entry.rows.now leaves.entry.rows.now leaves.entry.text.now)) }
{
    if leaves.count < 3 {
        return false;
    }
    if !leaves.laid(card.text) {
        return false;
    }
    if !sound_leaves(card.separator, leaves) {
        return false;
    }
    if !segments.grouped(leaves) {
        return false;
    }
    if !segments.owned(levels, card.context) {
        return false;
    }
    in_order(card.context, segments, leaves)
}

// Whether the header's rows keep the header rule (H2, S4) and the leaf rows after them go on
// soundly.
fn sound_leaves(field: u8, leaves: Leaves) -> bool
    requires { LaidOut leaves.rows.now leaves.text.now leaves.count }
    ensures { result ≡ sound_leaves field leaves.entry.rows.now leaves.entry.text.now leaves.entry.count }
{
    if !leaves.header_leaves() {
        return false;
    }
    let separators = leaves.separators_at(field);
    separators.sound() && leaves.go_on_from(separators)
}

// Whether field 7 of the first segment names the context (C1) and the kinds stand where it allows
// them (C2, C3). The first segment row counts that segment's leaves.
fn in_order(context: u8, segments: Segments, leaves: Leaves) -> bool
    requires { KindsAndLeaves segments.rows.now segments.count leaves.rows.now leaves.text.now leaves.count }
    ensures { result ≡ in_order context segments.entry.rows.now segments.entry.count
        leaves.entry.rows.now leaves.entry.text.now leaves.entry.count }
{
    let end = rows::wide(segments.rows[rows::COUNT]);
    leaves.context_of(end) == Some(context) && segments.ordered(&followers::table(), context)
}
