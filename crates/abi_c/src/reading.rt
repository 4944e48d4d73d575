// The functions of `abi::reading`, which says what they are for.
ghost use Rattle.abi.specs.FormNumbers.{limits_numbered};
ghost use Rattle.abi.specs.Reading.{ReadInto};

use table::rows;

#[unsafe(no_mangle)]
pub extern "C" fn sargaceu_read(
    form: u8,
    message: &[u8],
    text: &mut [u8],
    segments: &mut [rows::Entry],
    leaves: &mut [rows::Entry],
    answer: &mut [usize],
) -> u8
    ensures { ReadInto (limits_numbered form) message.now text.old segments.old leaves.old answer.old
        result text.new segments.new leaves.new answer.new }
{
    abi::reading::sargaceu_read(form, message, text, segments, leaves, answer)
}
