// Segment rows of an archived table, put into a new buffer with the owners that their kinds have now.
ghost use Rattle.std.specs.Prelude.{◌≡◌, ◌+◌, ◌≤◌, length};
ghost use Rattle.std.proofs.lemmas.List.Edits.{sets};
ghost use Rattle.order.specs.Owners.{owners};
ghost use Rattle.order.specs.inner.Levels.{level_in};
ghost use Rattle.table.specs.Rows.{segment_row_size, segment_row};
ghost use Rattle.write.specs.inner.Tests.{kind_column};
ghost use Rattle.archive.specs.inner.Asked.{RowsFit};
ghost use Rattle.archive.specs.inner.OwnedRows.{rows_owned};

use crate::Narrow;
use order::{levels, owners};
use table::rows;
use table::rows::Entry;

// Puts the rows at the front of a new buffer: kind, first leaf and leaf count as they are, the owner by a table of levels (O2, O3).
pub(crate) fn put_rows(
    table: &[u8; 84],
    context: u8,
    segments: &[Narrow],
    many: usize,
    to: &mut [Entry],
)
    requires { RowsFit (level_in table.now) segments.now many to.old }
    ensures { to.new ≡ sets to.old 0
        (rows_owned (owners (level_in table.now context) (kind_column segments.now many)) segments.now) }
{
    let mut nearest = owners::no_rows();
    for i in 0..many {
        let at = i * rows::SEGMENT_ROW;
        let kind = segments[at] as u8;
        let level = levels::level_of(table, context, kind);
        let row = (i + 1) as Entry;
        let owner = owners::owner_of(&mut nearest, row, kind, level);
        let same = Entry::from(segments[at]);
        let first = Entry::from(segments[at + rows::FIRST]);
        let count = Entry::from(segments[at + rows::COUNT]);
        put_row(same, owner, first, count, to, at);
    }
}

// Puts one row.
fn put_row(kind: Entry, owner: Entry, first: Entry, count: Entry, to: &mut [Entry], at: usize)
    requires { at + segment_row_size ≤ length to.old }
    ensures { to.new ≡ sets to.old at (segment_row kind owner first count) }
{
    to[at..at + rows::SEGMENT_ROW].copy_from_slice(&[kind, owner, first, count]);
}
