// Where the text of a line begins that is joined to its segment.
ghost use Rattle.std.specs.Prelude.{true, false, ◌≡◌, drop};
ghost use Rattle.read.specs.inner.Starting.{text_from};

// Of a line that begins at `at`: behind `A` and the field separator where it is an addendum (A1),
// else `at` itself (A2). At the message's end it is `at` too, so that the open segment is closed
// there as before the next one.
pub(crate) fn text_from(message: &[u8], at: usize, field: u8) -> usize
    ensures { result ≡ text_from field at (drop at message.now) }
{
    if at < message.len()
        && message[at] == b'A'
        && at + 1 < message.len()
        && message[at + 1] == field
    {
        at + 2
    } else {
        at
    }
}
