// Entries put at the front of a new buffer.
ghost use Rattle.std.specs.Prelude.{◌≡◌, ◌≤◌, length};
ghost use Rattle.std.proofs.lemmas.List.Edits.{sets};

use crate::Narrow;
use table::rows::Entry;

// All bytes of a text.
// kept (C): std's copy would call memmove; the archive for C needs memcpy and memset alone
pub(crate) fn put_bytes(text: &[u8], to: &mut [u8])
    requires { length text.now ≤ length to.old }
    ensures { to.new ≡ sets to.old 0 text.now }
{
    for (at, byte) in text.iter().enumerate() {
        to[at] = *byte;
    }
}

// All numbers of some rows, widened.
pub(crate) fn put_numbers(numbers: &[Narrow], to: &mut [Entry])
    requires { length numbers.now ≤ length to.old }
    ensures { to.new ≡ sets to.old 0 numbers.now }
{
    for (at, number) in numbers.iter().enumerate() {
        to[at] = Entry::from(*number);
    }
}
