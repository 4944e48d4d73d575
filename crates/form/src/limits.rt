// The limits of a message form (L3, L5, T6), and how many lines a segment takes under them (W2).
ghost use Rattle.std.specs.Prelude.{◌≡◌};
ghost use Rattle.form.specs.Limits.{line_count, lines_under, Lawful};

// A form's limits, by value: inner functions take these, and only the public layer names a form. The reader's `fill` takes them for its
// contract alone, which says by which limits the table is that of the message.
#[derive(Clone, Copy)]
pub struct Limits {
    // bytes of a line before its CR
    pub line: usize,
    // bytes of an addendum after its A and separator
    pub more: usize,
    pub segments: usize,
    pub leaves: usize,
    // bytes of a message
    pub bytes: usize,
}

impl Limits {
    // How many lines a segment of so many bytes takes, for every number of bytes (W2): of the limits it reads `line` and `more` alone. 0 where
    // they are not lawful: a line has no room for the seven header bytes, or an addendum with its two bytes more is not as long as a line.
    pub fn lines(self, bytes: usize) -> usize
        ensures { result ≡ lines_under self bytes }
    {
        if self.line < 7 {
            return 0;
        }
        if self.line - 2 != self.more {
            return 0;
        }
        line_count(self, bytes)
    }
}

// The same under lawful limits. No sum passes the number of bytes, since more is less than line.
fn line_count(limits: Limits, bytes: usize) -> usize
    requires { Lawful limits }
    ensures { result ≡ line_count limits bytes }
{
    if bytes <= limits.line {
        1
    } else {
        1 + (bytes - limits.line + (limits.more - 1)) / limits.more
    }
}
