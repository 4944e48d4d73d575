// The lines of segments as they are filled (W1): separators one by one, texts in parts, as much at
// a time as the line begun has room for. An addendum is begun only where a line is full and more of
// its segment follows.
ghost use Rattle.std.specs.Prelude.{[], ◌∷◌, ◌≡◌};
ghost use Rattle.write.specs.inner.Filling.{stand, placed, filled, segment_closed, broken, line_opened, puts};
ghost use Rattle.write.specs.inner.Asked.{Opens, RoomForByte, RoomForText, RoomForEnd, ByteInside, TextInside};

use form::limits::Limits;
use form::separators::Separators;

// CR ends a line (L1).
pub(crate) const CR: u8 = 13;

// How far the output is written: its bytes, the bytes that the line begun still holds, the lines
// closed.
#[derive(Clone, Copy)]
pub struct Going {
    pub out: usize,
    pub room: usize,
    pub lines: usize,
}

// A byte goes into the line begun, which has room for it.
fn place(going: Going, byte: u8, output: &mut [u8]) -> Going
    requires { RoomForByte going output.old }
    ensures { stand output.new result ≡ placed (stand output.old going) byte }
{
    let at = going.out;
    output[at] = byte;
    Going {
        out: at + 1,
        room: going.room - 1,
        lines: going.lines,
    }
}

// A text goes into the line begun, which has room for it.
fn fill(going: Going, text: &[u8], output: &mut [u8]) -> Going
    requires { RoomForText going output.old text.now }
    ensures { stand output.new result ≡ filled (stand output.old going) text.now }
{
    let at = going.out;
    // kept (C): byte by byte, since for a copy of slices the archive would need `memmove`, too.
    for (i, byte) in text.iter().enumerate() {
        output[at + i] = *byte;
    }
    Going {
        out: at + text.len(),
        room: going.room - text.len(),
        lines: going.lines,
    }
}

// What lines are written by: the limits, and the separators of a table.
#[derive(Clone, Copy)]
pub struct Lines {
    pub limits: Limits,
    pub separators: Separators,
}

impl Lines {
    // The line begun ends, and its segment with it.
    pub(crate) fn close(self, going: Going, output: &mut [u8]) -> Going
        requires { RoomForEnd going output.old 1 }
        ensures { stand output.new result ≡ segment_closed self.limits (stand output.old going) }
    {
        let at = going.out;
        output[at] = CR;
        Going {
            out: at + 1,
            room: self.limits.line,
            lines: going.lines + 1,
        }
    }

    // The line begun ends, and its segment goes on in an addendum (A1).
    fn break_line(self, going: Going, output: &mut [u8]) -> Going
        requires { RoomForEnd going output.old 3 }
        ensures { stand output.new result ≡ broken self.limits self.separators.field (stand output.old going) }
    {
        let at = going.out;
        output[at] = CR;
        output[at + 1] = b'A';
        output[at + 2] = self.separators.field;
        Going {
            out: at + 3,
            room: self.limits.more,
            lines: going.lines + 1,
        }
    }

    // A line with room for one more byte of the segment: the line begun, or an addendum where that
    // is full.
    fn open_line(self, going: Going, output: &mut [u8]) -> Going
        requires { Opens self.limits self.separators.field (stand output.old going) }
        ensures { stand output.new result ≡ line_opened self.limits self.separators.field (stand output.old going) }
    {
        if going.room == 0 {
            return self.break_line(going, output);
        }
        going
    }

    // One byte more of the segment, which is not CR.
    pub(crate) fn put_inside(self, going: Going, byte: u8, output: &mut [u8]) -> Going
        requires { ByteInside self.limits self.separators.field (stand output.old going) byte }
        ensures { stand output.new result ≡ puts self.limits self.separators.field (stand output.old going) (byte ∷ []) }
    {
        let open = self.open_line(going, output);
        place(open, byte, output)
    }

    // The bytes of a text, none of which is CR: lines are filled and broken as long as more bytes
    // are left than the line has room for.
    pub(crate) fn put_text(self, going: Going, text: &[u8], output: &mut [u8]) -> Going
        requires { TextInside self.limits self.separators.field (stand output.old going) text.now }
        ensures { stand output.new result ≡ puts self.limits self.separators.field (stand output.old going) text.now }
    {
        let mut going = going;
        let mut left = text;
        // kept (plainer): a turn takes what the line has room for, which the turn before decides.
        while going.room < left.len() {
            let (part, others) = left.split_at(going.room);
            let full = fill(going, part, output);
            going = self.break_line(full, output);
            left = others;
        }
        fill(going, left, output)
    }
}
