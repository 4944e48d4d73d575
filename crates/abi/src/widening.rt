// Archived tables brought over (B1 to B3).
ghost use Rattle.form.specs.Forms.{small_form};
ghost use Rattle.table.specs.Lent.{lent};
ghost use Rattle.abi.specs.Cards.{card_of};
ghost use Rattle.abi.specs.Widening.{WidenedInto};

use crate::{answer, card};
use form::number::Number;
use table::rows;

// How many numbers an answer has: as many as the reader's.
const ANSWER: usize = 6;

// Widens an archived table into new buffers of the small form. The number comes back; place and card go into the answer, those of a refusal too
// (N3). An answer of under six numbers is refused with 1 before the table is looked at.
#[unsafe(no_mangle)]
pub extern "C" fn sargaceu_widen(
    card: &[usize],
    segments: &[u16],
    leaves: &[u16],
    text: &[u8],
    new_text: &mut [u8],
    new_segments: &mut [rows::Entry],
    new_leaves: &mut [rows::Entry],
    answer: &mut [usize],
) -> u8
    ensures { WidenedInto small_form (lent (card_of card.now) segments.now leaves.now text.now)
        new_text.old new_segments.old new_leaves.old answer.old
        result new_text.new new_segments.new new_leaves.new answer.new }
{
    if answer.len() < ANSWER {
        return Number::SHORT_BUFFER;
    }
    let widened = archive::widen(
        card::card_of(card),
        segments,
        leaves,
        text,
        new_text,
        new_segments,
        new_leaves,
    );
    answer::put_filed(widened, answer)
}
