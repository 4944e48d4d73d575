// The message of a table that has passed the table test (W1, W3).
ghost use Rattle.write.specs.Answer.{GivesWriting};
ghost use Rattle.write.specs.inner.Message.{message_written};
ghost use Rattle.write.specs.inner.Asked.{MessageFits};

use crate::Written;
use crate::leaf_rows::Leaves;
use crate::lines::Lines;
use form::limits::Limits;
use table::Card;
use table::rows::Entry;

// Writes the message at the front of the output, which has the bytes that a message may have.
pub(crate) fn write_message(
    limits: Limits,
    card: Card,
    leaves: &[Entry],
    text: &[u8],
    output: &mut [u8],
) -> Written
    requires { MessageFits limits card leaves.now text.now output.old }
    ensures { GivesWriting (message_written limits card leaves.now text.now) output.old result output.new }
{
    let leaves = Leaves {
        rows: leaves,
        text,
        count: card.leaves,
    };
    let lines = Lines {
        limits,
        separators: leaves.separators_at(card.separator),
    };
    let going = lines.put_leaves(leaves, output);
    Written {
        number: 0,
        place: 0,
        bytes: going.out,
        lines: going.lines,
    }
}
