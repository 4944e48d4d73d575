// Reading with a lent tally (X5): the tally that a caller keeps is brought up to date where it lies, and is as it was where the message is refused.
#![tactic(auto)]

ghost use Rattle.form.specs.Forms.{limits_of};
ghost use Rattle.order.specs.Owners.{level};
ghost use Rattle.read.specs.Counting.{IndexedAs};

use form::forms::Form;
use index::tally::Tally;
use read::Answer;
use read::indexed::read_indexed;
use table::rows::Entry;

// Reads a message as the reader with an index does (X2 to X5), and leaves in the lent tally what that one returns.
pub fn read_tallied(
    tally: &mut Tally,
    form: Form,
    message: &[u8],
    text: &mut [u8],
    segments: &mut [Entry],
    leaves: &mut [Entry],
    codes: &mut [u8],
    counts: &mut [u32],
) -> Answer
    ensures { IndexedAs (limits_of form) level tally.old message.now text.old segments.old leaves.old
        codes.old counts.old
        (record { answer = result; tally = tally.new }) text.new segments.new leaves.new codes.new counts.new }
{
    let indexed = read_indexed(*tally, form, message, text, segments, leaves, codes, counts);
    *tally = indexed.tally;
    indexed.answer
}
