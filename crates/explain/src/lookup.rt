// Lookups in the table of an accepted message: the leaves are named as the recommendation's tables
// number them (S5).
use look::leaf::{Place, Sought, find_leaf_in_segment};
use table::rows::Entry;
use table::{Card, rows};

// A table that a message was read to: the card and the buffers that it counts in.
#[derive(Clone, Copy)]
pub struct Table<'a> {
    pub card: Card,
    pub segments: &'a [Entry],
    pub leaves: &'a [Entry],
    pub text: &'a [u8],
}

// A row of it, by its number (T1). There may be no such row: then it has no kind, no owner and no
// leaves.
#[derive(Clone, Copy)]
pub struct TableRow<'a> {
    table: Table<'a>,
    number: Entry,
}

impl<'a> Table<'a> {
    // The row of a number. 0 is no row.
    pub fn row(self, number: usize) -> TableRow<'a> {
        TableRow {
            table: self,
            number: Entry::try_from(number).unwrap_or(0),
        }
    }
}

impl<'a> TableRow<'a> {
    // The number in a column of its segment row.
    fn entry(self, column: usize) -> Option<Entry> {
        let before = rows::wide(self.number).checked_sub(1)?;
        let from = self.table.segments.get(before * rows::SEGMENT_ROW..)?;
        from.get(column).copied()
    }

    // The number of its kind; 0, which is no kind, where there is no such row.
    // kept (C): the kinds of `form::kind` are numbers
    pub fn kind(self) -> u8 {
        let kind = self.entry(0).and_then(|kind| u8::try_from(kind).ok());
        kind.unwrap_or(0)
    }

    // The row that owns it.
    pub fn owner(self) -> Option<TableRow<'a>> {
        let number = self.entry(rows::OWNER).filter(|owner| *owner != 0)?;
        Some(TableRow { number, ..self })
    }

    // What a leaf of it is.
    fn leaf(self, field: Entry, repetition: Entry, subfield: Entry, subsubfield: Entry) -> Sought {
        let table = self.table;
        let place = Place {
            segment: self.number,
            field,
            repetition,
            subfield,
            subsubfield,
        };
        find_leaf_in_segment(table.card, table.segments, table.leaves, table.text, place)
    }

    // Whether a leaf of it is there, with a text or without.
    fn has(self, field: Entry, repetition: Entry, subfield: Entry, subsubfield: Entry) -> bool {
        !matches!(
            self.leaf(field, repetition, subfield, subsubfield),
            Sought::NotThere
        )
    }

    // Whether a field of it has a second sub-subfield, subfield or repetition.
    pub fn has_more(self, field: Entry) -> bool {
        self.has(field, 1, 2, 1) || self.has(field, 1, 1, 2) || self.has(field, 2, 1, 1)
    }

    // The text of a subfield of a field.
    pub fn text(self, field: Entry, subfield: Entry) -> Option<&'a [u8]> {
        match self.leaf(field, 1, subfield, 1) {
            Sought::At(start, length) => self.table.text.get(start..)?.get(..length),
            Sought::Empty | Sought::NotThere => None,
        }
    }

    // The second subfield of a field, which is a name, or the first, a code, where that has no
    // text.
    pub fn name(self, field: Entry) -> Option<&'a [u8]> {
        self.text(field, 2).or(self.text(field, 1))
    }
}
