// The functions of `abi::places`, which says what they are for.
ghost use Rattle.form.specs.Forms.{small_form};
ghost use Rattle.source.specs.Places.{row_at, place_of_row};
ghost use Rattle.source.specs.Positions.{position_of};
ghost use Rattle.abi.specs.Places.{ToldPlace, ToldRun, ToldPosition};

use source::row;

#[unsafe(no_mangle)]
pub extern "C" fn sargaceu_row_place(message: &[u8], row: usize, answer: &mut [usize]) -> usize
    ensures { ToldPlace (place_of_row small_form message.now row) answer.old result answer.new }
{
    abi::places::sargaceu_row_place(message, row, answer)
}

#[unsafe(no_mangle)]
pub extern "C" fn sargaceu_row_at(message: &[u8], at: usize, answer: &mut [usize]) -> usize
    ensures { ToldRun (row_at small_form message.now at) answer.old result answer.new }
{
    abi::places::sargaceu_row_at(message, at, answer)
}

#[unsafe(no_mangle)]
pub extern "C" fn sargaceu_position(message: &[u8], offset: usize, answer: &mut [usize]) -> usize
    ensures { ToldPosition (position_of message.now offset) answer.old result answer.new }
{
    abi::places::sargaceu_position(message, offset, answer)
}
