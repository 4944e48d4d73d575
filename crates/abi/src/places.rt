// Where a row stands in a message's file, and line and column of an offset (E1 to E4).
ghost use Rattle.form.specs.Forms.{small_form};
ghost use Rattle.source.specs.Places.{row_at, place_of_row};
ghost use Rattle.source.specs.Positions.{position_of};
ghost use Rattle.abi.specs.Places.{ToldPlace, ToldRun, ToldPosition};

use crate::answer;
use source::{position, row};

// Where the row with a number, counted from 1, stands in a message: how many lines it takes, 0 where there is no such row, and into the answer the
// offset at which the first of them begins.
#[unsafe(no_mangle)]
pub extern "C" fn sargaceu_row_place(message: &[u8], row: usize, answer: &mut [usize]) -> usize
    ensures { ToldPlace (place_of_row small_form message.now row) answer.old result answer.new }
{
    let place = row::row_place(message, row);
    let numbers = [place.start];
    answer::put_numbers(answer, &numbers);
    place.lines
}

// The line at a place of a message and the addenda behind it: how many lines these are, 0 where no line is there, and into the answer the place behind
// them.
#[unsafe(no_mangle)]
pub extern "C" fn sargaceu_row_at(message: &[u8], at: usize, answer: &mut [usize]) -> usize
    ensures { ToldRun (row_at small_form message.now at) answer.old result answer.new }
{
    let run = row::row_at(message, at);
    let numbers = [run.next];
    answer::put_numbers(answer, &numbers);
    run.lines
}

// The line of an offset as an editor shows it, and into the answer its column.
#[unsafe(no_mangle)]
pub extern "C" fn sargaceu_position(message: &[u8], offset: usize, answer: &mut [usize]) -> usize
    ensures { ToldPosition (position_of message.now offset) answer.old result answer.new }
{
    let found = position::position_of(message, offset);
    let numbers = [found.column];
    answer::put_numbers(answer, &numbers);
    found.line
}
