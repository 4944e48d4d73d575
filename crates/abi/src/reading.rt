// The reader (N1 to N3).
ghost use Rattle.abi.specs.FormNumbers.{limits_numbered};
ghost use Rattle.abi.specs.Reading.{ReadInto};

use crate::{answer, forms};
use form::number::Number;
use table::rows;

// How many numbers an answer has: the place, and the five of the card.
const ANSWER: usize = 6;

// Reads a message of a form into the three lent buffers. The number comes back; place and card go into the answer, those of a refusal too (N3). An
// answer of under six numbers is refused before anything is read, since the caller could not learn what the buffers hold then.
#[unsafe(no_mangle)]
pub extern "C" fn sargaceu_read(
    form: u8,
    message: &[u8],
    text: &mut [u8],
    segments: &mut [rows::Entry],
    leaves: &mut [rows::Entry],
    answer: &mut [usize],
) -> u8
    ensures { ReadInto (limits_numbered form) message.now text.old segments.old leaves.old answer.old
        result text.new segments.new leaves.new answer.new }
{
    if answer.len() < ANSWER {
        return Number::SHORT_BUFFER;
    }
    answer::put_filed(
        read::read(forms::form_of(form), message, text, segments, leaves),
        answer,
    )
}
