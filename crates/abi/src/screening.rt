// The check for screening reports (R1 to R6).
ghost use Rattle.table.specs.Lent.{lent};
ghost use Rattle.abi.specs.Cards.{card_of};
ghost use Rattle.abi.specs.FormNumbers.{limits_numbered};
ghost use Rattle.abi.specs.Screening.{ScreenedInto};

use crate::{answer, card, forms};
use form::number::Number;
use table::rows;

// How many numbers an answer has: the place.
const SCREEN_ANSWER: usize = 1;

// Whether a table of a form is a screening report that keeps every rule (R4, R5). The number comes back; the place goes into the answer. An answer of no
// number is refused with 1 before the table is looked at, so 1 may come where the table is none, too (13).
#[unsafe(no_mangle)]
pub extern "C" fn sargaceu_screen(
    form: u8,
    card: &[usize],
    segments: &[rows::Entry],
    leaves: &[rows::Entry],
    text: &[u8],
    answer: &mut [usize],
) -> u8
    ensures { ScreenedInto (limits_numbered form) (lent (card_of card.now) segments.now leaves.now text.now)
        answer.old result answer.new }
{
    if answer.len() < SCREEN_ANSWER {
        return Number::SHORT_BUFFER;
    }
    let verdict = screen::screen(
        forms::form_of(form),
        card::card_of(card),
        segments,
        leaves,
        text,
    );
    let numbers = [verdict.place];
    answer::put_numbers(answer, &numbers);
    verdict.number
}
