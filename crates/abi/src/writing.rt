// The writer (W1 to W4) and the table test.
ghost use Rattle.std.specs.Prelude.{◌≡◌};
ghost use Rattle.order.specs.Owners.{level};
ghost use Rattle.table.specs.Lent.{lent};
ghost use Rattle.write.specs.inner.ReadsBack.{is_table};
ghost use Rattle.abi.specs.Cards.{card_of};
ghost use Rattle.abi.specs.FormNumbers.{limits_numbered};
ghost use Rattle.abi.specs.Writing.{WroteInto};

use crate::{answer, card, forms};
use form::number::Number;
use table::rows;

// How many numbers an answer has: place, bytes and lines.
const ANSWER: usize = 3;

// Writes the message of a table of a form at the front of the output. The number comes back; place, bytes and lines go into the answer. An answer of
// under three numbers is refused with 1 before the output is looked at, so 1 may come where the output is short, too (12).
#[unsafe(no_mangle)]
pub extern "C" fn sargaceu_write(
    form: u8,
    card: &[usize],
    segments: &[rows::Entry],
    leaves: &[rows::Entry],
    text: &[u8],
    output: &mut [u8],
    answer: &mut [usize],
) -> u8
    ensures { WroteInto (limits_numbered form) (lent (card_of card.now) segments.now leaves.now text.now)
        output.old answer.old result output.new answer.new }
{
    if answer.len() < ANSWER {
        return Number::SHORT_BUFFER;
    }
    let written = write::write(
        forms::form_of(form),
        card::card_of(card),
        segments,
        leaves,
        text,
        output,
    );
    let numbers = [written.place, written.bytes, written.lines];
    answer::put_numbers(answer, &numbers);
    written.number
}

// Whether some message of the form reads to the table (W4): the writer's 13 is the no.
#[unsafe(no_mangle)]
pub extern "C" fn sargaceu_is_table(
    form: u8,
    card: &[usize],
    segments: &[rows::Entry],
    leaves: &[rows::Entry],
    text: &[u8],
) -> bool
    ensures { result ≡ is_table (limits_numbered form) level (lent (card_of card.now) segments.now leaves.now text.now) }
{
    write::test::is_table(
        forms::form_of(form),
        card::card_of(card),
        segments,
        leaves,
        text,
    )
}
