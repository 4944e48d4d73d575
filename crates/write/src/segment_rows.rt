// The tests of segment rows (T2): each row against the leaves of its segment.
ghost use Rattle.std.specs.Prelude.{◌≡◌, ◌+◌, ◌*◌, ◌≤◌, eqb, length};
ghost use Rattle.laws.specs.Lists.{same, sum_of};
ghost use Rattle.order.specs.inner.Levels.{level_in};
ghost use Rattle.order.specs.Owners.{owners};
ghost use Rattle.order.specs.inner.Place.{misplaced};
ghost use Rattle.table.specs.Rows.{segment_row_size, leaf_row_size, text_of};
ghost use Rattle.table.specs.inner.Back.{leaf_at};
ghost use Rattle.table.specs.inner.BySegment.{kind_among, context_among, written_bytes};
ghost use Rattle.write.specs.inner.Tests.{groups_in, Decides, leaves_between, SegmentEnd, FieldLeaf, known, row_states, groups_stated, kind_column, owner_column};
ghost use Rattle.write.specs.inner.Asked.{LeafThere, RowThere, FirstSegment, Following, FieldThere, UpTo, Stretch, SegmentThere, LawfulStretch, Groupable, Grouped, Orderable, Ownable};

use crate::leaf_rows::Leaves;
use form::context::Context;
use form::kind::Kind;
use form::limits::Limits;
use order::watcher::Watcher;
use order::{levels, owners};
use table::rows;
use table::rows::Entry;

// A number that names something, or none where it is 0, as `Kind::named` and `Context::named` of
// the crate form have it.
fn known(number: u8) -> Option<u8>
    ensures { result ≡ known number }
{
    if number == 0 { None } else { Some(number) }
}

impl<'a> Leaves<'a> {
    // Whether the segment that begins at the leaf `first` has so many leaves: the last of them
    // stands in it and the leaf after that does not. No leaf between has to be looked at, since
    // segment numbers never fall along places that follow each other.
    fn has_leaves(self, first: usize, leaves: usize) -> bool
        requires { Following self.rows.now self.count first }
        ensures { Decides result (SegmentEnd self.entry.rows.now self.entry.count first (first + leaves)) }
    {
        if leaves == 0 {
            return false;
        }
        if self.count - first < leaves {
            return false;
        }
        let end = first + leaves;
        let segment = self.rows[first * rows::LEAF_ROW];
        if self.rows[(end - 1) * rows::LEAF_ROW] != segment {
            return false;
        }
        if end == self.count {
            return true;
        }
        self.rows[end * rows::LEAF_ROW] != segment
    }

    // A leaf of a field, or none where the next leaf is of that field, too.
    fn alone(self, field: Entry, at: usize, end: usize) -> Option<usize>
        requires { FieldThere self.rows.now field at end }
        ensures { FieldLeaf self.entry.rows.now field at end result }
    {
        let next = at + 1;
        if next < end && self.rows[next * rows::LEAF_ROW + rows::FIELD] == field {
            None
        } else {
            Some(at)
        }
    }

    // The one leaf of a field among the leaves from `first` up to `end`, or none where the field is
    // missing or is more than one leaf.
    fn field_leaf(self, field: Entry, first: usize, end: usize) -> Option<usize>
        requires { UpTo self.rows.now first end }
        ensures { FieldLeaf self.entry.rows.now field first end result }
    {
        for i in first..end {
            if self.rows[i * rows::LEAF_ROW + rows::FIELD] == field {
                return self.alone(field, i, end);
            }
        }
        None
    }

    // The text of a leaf.
    fn text_of(self, leaf: usize) -> &'a [u8]
        requires { LeafThere self.rows.now self.text.now leaf }
        ensures { result.now ≡ (leaf_at self.entry.rows.now self.entry.text.now leaf).text }
    {
        let at = leaf * rows::LEAF_ROW;
        let start = rows::wide(self.rows[at + rows::START]);
        let end = start + rows::wide(self.rows[at + rows::LENGTH]);
        &self.text[start..end]
    }

    // The kind of the segment of the leaves from `first` up to `end`, if it has one (S1). Its first
    // leaf is of field 1, as each segment's is.
    fn kind_of(self, first: usize, end: usize) -> Option<u8>
        requires { SegmentThere self.rows.now self.text.now self.count first end }
        ensures { result ≡ known (kind_among (leaves_between self.entry.rows.now self.entry.text.now first end)) }
    {
        let leaf = self.alone(1, first, end)?;
        known(Kind::named(self.text_of(leaf)))
    }

    // The context that field 7 of the first segment names, if it names one (C1). That segment's
    // leaves go up to `end`.
    pub(crate) fn context_of(self, end: usize) -> Option<u8>
        requires { FirstSegment self.rows.now self.text.now self.count end }
        ensures { result ≡ known (context_among (groups_in self.entry.rows.now self.entry.text.now self.entry.count)) }
    {
        let leaf = self.field_leaf(7, 0, end)?;
        known(Context::named(self.text_of(leaf)))
    }

    // The bytes of the texts of the leaves from `first` up to `end`, which lie end to end: from the
    // first one's start up to the last one's end.
    fn text_bytes(self, first: usize, end: usize) -> usize
        requires { Stretch self.rows.now self.text.now self.count first end }
        ensures { (result ≡ length (text_of (leaves_between self.entry.rows.now self.entry.text.now first end)))
            × (result ≤ length self.entry.text.now) }
    {
        let last = (end - 1) * rows::LEAF_ROW;
        let start = rows::wide(self.rows[last + rows::START]);
        let finish = start + rows::wide(self.rows[last + rows::LENGTH]);
        finish - rows::wide(self.rows[first * rows::LEAF_ROW + rows::START])
    }

    // The bytes that are written for the segment of the leaves from `first` up to `end` (W1, W2):
    // its texts and separators, a CR for each line, and `A` and separator for each line but the
    // first.
    fn segment_bytes(self, limits: Limits, first: usize, end: usize) -> usize
        requires { LawfulStretch limits self.rows.now self.text.now self.count first end }
        ensures { result ≡ written_bytes limits (leaves_between self.entry.rows.now self.entry.text.now first end) }
    {
        let bytes = self.text_bytes(first, end) + (end - first - 1);
        bytes + 3 * limits.lines(bytes) - 2
    }
}

// Segment rows: so many segments.
#[derive(Clone, Copy)]
pub struct Segments<'a> {
    pub rows: &'a [Entry],
    pub count: usize,
}

impl Segments<'_> {
    // Whether segment row i states a kind, a first leaf and a leaf count.
    fn row_states(self, i: usize, kind: u8, first: usize, count: usize) -> bool
        requires { RowThere self.rows.now i kind }
        ensures { result ≡ row_states self.entry.rows.now i kind first count }
    {
        let at = i * rows::SEGMENT_ROW;
        self.rows[at] == Entry::from(kind)
            && rows::wide(self.rows[at + rows::FIRST]) == first
            && rows::wide(self.rows[at + rows::COUNT]) == count
    }

    // Whether the segment rows state the kinds, the first leaves and the leaf counts of the leaves'
    // segments.
    pub(crate) fn grouped(self, leaves: Leaves) -> bool
        requires { Groupable self.rows.now self.count leaves.rows.now leaves.text.now leaves.count }
        ensures { result ≡ groups_stated self.entry.rows.now 0 self.entry.count 1
            (groups_in leaves.entry.rows.now leaves.entry.text.now leaves.entry.count) }
    {
        let mut first = 0;
        for i in 0..self.count {
            let size = rows::wide(self.rows[i * rows::SEGMENT_ROW + rows::COUNT]);
            if !leaves.has_leaves(first, size) {
                return false;
            }
            let end = first + size;
            let Some(kind) = leaves.kind_of(first, end) else {
                return false;
            };
            if !self.row_states(i, kind, first + 1, size) {
                return false;
            }
            first = end;
        }
        first == leaves.count
    }

    // Whether the kinds that the segment rows state stand where the context allows them (C2, C3).
    pub(crate) fn ordered(self, table: &[u8; 847], context: u8) -> bool
        requires { Orderable table.now self.rows.now self.count }
        ensures { result ≡ eqb (misplaced context (kind_column self.entry.rows.now self.entry.count)) 0 }
    {
        let mut watcher = Watcher::begin(context);
        for i in 0..self.count {
            let kind = self.rows[i * rows::SEGMENT_ROW] as u8;
            let told = watcher.tell_by(table, kind);
            if !told.yes {
                return false;
            }
            watcher = told.watcher;
        }
        watcher.last == Kind::L
    }

    // Whether the owners that the segment rows state are those of their kinds (O2, O3).
    pub(crate) fn owned(self, table: &[u8; 84], context: u8) -> bool
        requires { Ownable (level_in table.now) self.rows.now self.count }
        ensures { result ≡ same (owner_column self.entry.rows.now self.entry.count)
            (owners (level_in table.now context) (kind_column self.entry.rows.now self.entry.count)) }
    {
        let mut nearest = owners::no_rows();
        for i in 0..self.count {
            let at = i * rows::SEGMENT_ROW;
            let kind = self.rows[at] as u8;
            let level = levels::level_of(table, context, kind);
            let row = (i + 1) as Entry;
            if owners::owner_of(&mut nearest, row, kind, level) != self.rows[at + rows::OWNER] {
                return false;
            }
        }
        true
    }

    // The bytes that are written for all segments, whose leaves the segment rows count.
    pub(crate) fn message_bytes(self, limits: Limits, leaves: Leaves) -> usize
        requires { Grouped limits self.rows.now self.count leaves.rows.now leaves.text.now leaves.count }
        ensures { result ≡ sum_of (written_bytes limits) (groups_in leaves.entry.rows.now leaves.entry.text.now leaves.entry.count) }
    {
        let mut total = 0;
        let mut first = 0;
        for i in 0..self.count {
            let size = rows::wide(self.rows[i * rows::SEGMENT_ROW + rows::COUNT]);
            let end = first + size;
            total += leaves.segment_bytes(limits, first, end);
            first = end;
        }
        total
    }
}
