// The writer (rules W1 to W4): from a table back to the message, and the test whether some message
// reads to a table.
#![tactic(auto)]

ghost use Rattle.std.specs.Prelude.{◌≡◌};
ghost use Rattle.form.specs.Forms.{limits_of};
ghost use Rattle.order.specs.Owners.{level};
ghost use Rattle.table.specs.Lent.{lent};
ghost use Rattle.write.specs.Writing.{refuses};
ghost use Rattle.write.specs.Answer.{answer, WroteAs};

use form::forms::Form;
use form::number::Number;
use table::Card;
use table::rows::Entry;

mod leaf_rows;
mod leaves;
mod lines;
mod message;
mod segment_rows;
pub mod size;
pub mod test;

// What comes back (N1, W3): a number, its place, and the bytes and lines written. On a refusal all
// but the number are zero (N3).
// kept (C): this public type, and `WroteAs` of `write`, have these numbers; 0 is no refusal.
#[derive(Clone, Copy)]
pub struct Written {
    pub number: u8,
    pub place: usize,
    pub bytes: usize,
    pub lines: usize,
}

// Writes the message of a table of a form at the front of the output (W1): any card and any
// buffers. An output under the form's size (T6, T8) is refused with 12, a table that no message of
// the form reads to with 13 (N1, N2, W4); output bytes past the message stay as they were (W3).
pub fn write(
    form: Form,
    card: Card,
    segments: &[Entry],
    leaves: &[Entry],
    text: &[u8],
    output: &mut [u8],
) -> Written
    ensures { WroteAs (limits_of form) level (lent card segments.now leaves.now text.now) output.old result output.new }
{
    let limits = form.limits();
    if output.len() < limits.bytes {
        return refusal(Number::SHORT_OUTPUT);
    }
    if test::is_table(form, card, segments, leaves, text) {
        return message::write_message(limits, card, leaves, text, output);
    }
    refusal(Number::NO_TABLE)
}

// A refusal at the place 0, with counts that are zero (N1, N3).
fn refusal(number: u8) -> Written
    ensures { result ≡ answer (refuses number) }
{
    Written {
        number,
        place: 0,
        bytes: 0,
        lines: 0,
    }
}
