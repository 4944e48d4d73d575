// The leaves of a table one after the other, with one separator between two neighbours (S2), as
// lines (W1).
ghost use Rattle.std.specs.Prelude.{[], ◌∷◌, ◌≡◌};
ghost use Rattle.write.specs.inner.Filling.{stand, puts};
ghost use Rattle.write.specs.inner.Passing.{leading, Writable, WrittenOut};
ghost use Rattle.write.specs.inner.Asked.{NextInside, SeparatorFits};

use crate::leaf_rows::Leaves;
use crate::lines::{Going, Lines};
use form::separators::Separators;
use table::rows;
use table::rows::Entry;

// The separator between the leaf of a row and the next one of its segment: that of the first number
// of their places that differs. Some number does, since the next leaf stands at the place that
// comes next.
fn separator(separators: Separators, leaves: &[Entry], row: usize) -> u8
    requires { NextInside leaves.now row }
    ensures { result ≡ leading separators leaves.now row }
{
    let at = row * rows::LEAF_ROW;
    let next = at + rows::LEAF_ROW;
    if leaves[at + rows::FIELD] != leaves[next + rows::FIELD] {
        return separators.field;
    }
    if leaves[at + rows::REPETITION] != leaves[next + rows::REPETITION] {
        return separators.repeater;
    }
    if leaves[at + rows::SUBFIELD] != leaves[next + rows::SUBFIELD] {
        return separators.subfield;
    }
    separators.subsubfield
}

impl Lines {
    // The separator between the leaf of a row and the next one goes into the output; between two
    // segments it is CR.
    fn put_separator(self, going: Going, leaves: &[Entry], row: usize, output: &mut [u8]) -> Going
        requires { SeparatorFits self.limits self.separators (stand output.old going) leaves.now row }
        ensures { stand output.new result
            ≡ puts self.limits self.separators.field (stand output.old going) (leading self.separators leaves.now row ∷ []) }
    {
        let at = row * rows::LEAF_ROW;
        if leaves[at] != leaves[at + rows::LEAF_ROW] {
            return self.close(going, output);
        }
        let byte = separator(self.separators, leaves, row);
        self.put_inside(going, byte, output)
    }

    // The message of so many leaves, each with its separator after it, at the front of the output:
    // how many bytes and lines it is. Their texts lie end to end, so each begins where the one
    // before it ended.
    pub(crate) fn put_leaves(self, leaves: Leaves, output: &mut [u8]) -> Going
        requires { Writable self.limits self.separators leaves.rows.now leaves.count leaves.text.now output.old }
        ensures { WrittenOut self.limits self.separators leaves.entry.rows.now leaves.entry.count leaves.entry.text.now output.old result output.new }
    {
        let mut going = Going {
            out: 0,
            room: self.limits.line,
            lines: 0,
        };
        let mut from = 0;
        let last = leaves.count - 1;
        for row in 0..last {
            let end = from + rows::wide(leaves.rows[row * rows::LEAF_ROW + rows::LENGTH]);
            let put = self.put_text(going, &leaves.text[from..end], output);
            going = self.put_separator(put, leaves.rows, row, output);
            from = end;
        }
        let end = from + rows::wide(leaves.rows[last * rows::LEAF_ROW + rows::LENGTH]);
        let put = self.put_text(going, &leaves.text[from..end], output);
        self.close(put, output)
    }
}
