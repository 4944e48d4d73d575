// The listing of a message.
ghost use Rattle.std.specs.Prelude.{◌++◌, ◌+◌, ◌*◌, ◌≤◌, length};
ghost use Rattle.form.specs.Forms.{small_form};
ghost use Rattle.order.specs.Owners.{level};
ghost use Rattle.table.specs.Lent.{lent};
ghost use Rattle.write.specs.Answer.{written_size};
ghost use Rattle.listing.specs.Listing.{ListedAs, count_lines, row_lines};
ghost use Rattle.listing.specs.inner.Putting.{Wrote, RowsReady};

use crate::lines::{put_answer, put_counts, put_rows};
use crate::put::Pen;
use form::forms::Form;
use form::number::Number;
use table::{Card, rows};

// The bytes that every listing has room in: 256 for the first lines and 32 for each of 256 segments.
pub const SIZE: usize = 8448;

// Reads a message as the reader of the small form does, puts its listing (G1, G2) at the front of `list`, and answers how many bytes that has. Where `list`
// has under 8,448 bytes it answers 0, and nothing is read or written.
pub fn list(
    message: &[u8],
    text: &mut [u8],
    segments: &mut [rows::Entry],
    leaves: &mut [rows::Entry],
    list: &mut [u8],
) -> usize
    ensures listed_as { ListedAs small_form level message.now text.old segments.old leaves.old list.old
        result text.new segments.new leaves.new list.new }
    ensures within { result ≤ length list.old }
{
    if list.len() < SIZE {
        return 0;
    }
    let answer = read::read(Form::Small, message, text, segments, leaves);
    let mut pen = Pen {
        output: list,
        at: 0,
    };
    put_answer(&mut pen, answer.number, answer.place);
    if answer.number != Number::ACCEPTED {
        return pen.at;
    }
    put_table(&mut pen, answer.card, segments, leaves, text);
    pen.at
}

// The lines of a table behind the first three.
fn put_table(
    pen: &mut Pen,
    card: Card,
    segments: &[rows::Entry],
    leaves: &[rows::Entry],
    text: &[u8],
)
    requires { RowsReady segments.now card.segments pen.old.output.now pen.old.at (128 + card.segments * 32) }
    ensures { Wrote (128 + card.segments * 32) pen.old
        (count_lines card (written_size small_form level (lent card segments.now leaves.now text.now))
        ++ row_lines segments.now card.segments) pen.new }
{
    let size = write::size::written_bytes(Form::Small, card, segments, leaves, text);
    put_counts(pen, card, size);
    put_rows(pen, segments, card.segments);
}
