// The second pass over one line: its text goes into the text area, and each leaf that a separator closes gets its row.
ghost use Rattle.std.specs.Prelude.{◌≡◌, ◌+◌, ◌≤◌, ◌<◌, length, take, drop};
ghost use Rattle.std.proofs.lemmas.List.Edits.{sets};
ghost use Rattle.read.specs.inner.Scanning.{plain_run};
ghost use Rattle.read.specs.inner.Laying.{row_of, next_leaf, next_segment, NextFits, RowFits, LaysSorted, LaidBy};

use table::class::index;
use table::rows;
use table::rows::Entry;

// How far the pass has come: where in the leaf rows the row of the leaf begun goes, behind a row for each leaf closed, the place of that
// leaf (S5), and where its text begins in the text area and ends so far.
#[derive(Clone, Copy)]
pub struct Laying {
    pub row: usize,
    pub segment: usize,
    pub field: usize,
    pub repetition: usize,
    pub subfield: usize,
    pub subsubfield: usize,
    pub begin: usize,
    pub out: usize,
}

// How far it has come, and where the line ends.
#[derive(Clone, Copy)]
pub struct Laid {
    pub laying: Laying,
    pub end: usize,
}

impl Laying {
    // The leaf begun is closed: the next one stands one segment on, its other numbers are 1.
    pub(crate) fn next_segment(self) -> Laying
        requires { NextFits self }
        ensures { result ≡ next_segment self }
    {
        Laying {
            row: self.row + rows::LEAF_ROW,
            segment: self.segment + 1,
            field: 1,
            repetition: 1,
            subfield: 1,
            subsubfield: 1,
            begin: self.out,
            out: self.out,
        }
    }

    // The leaf begun is closed by a separator of a sort: the next one stands one such part on, its finer numbers are 1.
    pub(crate) fn next_leaf(self, sort: u8) -> Laying
        requires { NextFits self }
        ensures { result ≡ next_leaf self sort }
    {
        let next = Laying {
            row: self.row + rows::LEAF_ROW,
            begin: self.out,
            ..self
        };
        match sort {
            4 => Laying {
                subsubfield: self.subsubfield + 1,
                ..next
            },
            3 => Laying {
                subfield: self.subfield + 1,
                subsubfield: 1,
                ..next
            },
            2 => Laying {
                repetition: self.repetition + 1,
                subfield: 1,
                subsubfield: 1,
                ..next
            },
            _ => Laying {
                field: self.field + 1,
                repetition: 1,
                subfield: 1,
                subsubfield: 1,
                ..next
            },
        }
    }
}

// Copies text from `from` on into the text area, up to the first byte that is none, and answers how many bytes it copied.
// Such a byte lies ahead, so the loop tests no bound; one number counts both places.
fn copy_text(class: &[u8; 256], message: &[u8], from: usize, text: &mut [u8], out: usize) -> usize
    requires { (from + plain_run class.now (drop from message.now) < length message.now)
        × (out + plain_run class.now (drop from message.now) ≤ length text.old) }
    ensures { (result ≡ plain_run class.now (drop from message.now))
        × (text.new ≡ sets text.old out (take (plain_run class.now (drop from message.now)) (drop from message.now))) }
{
    let mut n = 0;
    let mut b = message[from];
    // kept (plainer): a byte that is no text lies ahead, so this needs no end or answer for none
    while class[index(b)] == 0 {
        text[out + n] = b;
        n += 1;
        b = message[from + n];
    }
    n
}

// Writes the row of the leaf begun (T3), whose text is whole.
pub(crate) fn put_leaf(laying: Laying, leaves: &mut [Entry])
    requires { RowFits laying leaves.old }
    ensures { leaves.new ≡ sets leaves.old laying.row (row_of laying) }
{
    let row = [
        laying.segment as Entry,
        laying.field as Entry,
        laying.repetition as Entry,
        laying.subfield as Entry,
        laying.subsubfield as Entry,
        laying.begin as Entry,
        (laying.out - laying.begin) as Entry,
    ];
    leaves[laying.row..laying.row + rows::LEAF_ROW].copy_from_slice(&row);
}

// The pass over a line from `from` on, up to the first byte below 32: of a line without fault its CR. Most leaves end at a field separator, so
// that byte is told by itself, and only the others are asked for their sort.
pub(crate) fn lay_line(
    class: &[u8; 256],
    field: u8,
    message: &[u8],
    from: usize,
    laying: Laying,
    text: &mut [u8],
    leaves: &mut [Entry],
) -> Laid
    requires { LaysSorted class.now field message.now from laying text.old leaves.old }
    ensures { LaidBy class.now message.now from laying text.old leaves.old result text.new leaves.new }
{
    let mut now = laying;
    let mut i = from;
    // kept (plainer): each turn goes on behind a stretch of text, so there is no range to go over
    loop {
        let n = copy_text(class, message, i, text, now.out);
        let stop = i + n;
        now.out = now.out + n;
        i = stop + 1;
        let b = message[stop];
        if b == field {
            put_leaf(now, leaves);
            now = now.next_leaf(1);
        } else {
            let sort = class[index(b)];
            if sort == 5 {
                return Laid {
                    laying: now,
                    end: stop,
                };
            }
            put_leaf(now, leaves);
            now = now.next_leaf(sort);
        }
    }
}
