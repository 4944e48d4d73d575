// Says in one line whether the message that comes on standard input is a screening report that
// keeps all rules (R1 to R6): yes, no or refused, and why. The command is ./screen; crate `screen`
// is the library that judges, and a crate is either a library or a program, so this one is called
// otherwise. Where the input cannot be read nothing is printed, which tells it: the exit status is
// always 0, and an empty message has a line. A write that fails is passed over.
#![tactic(auto)]

mod codes;
mod fields;
mod lent;
mod names;
mod refused;
mod values;
mod verdict;

use crate::lent::Lent;
use crate::refused::put_refused;
use crate::verdict::put_verdict;
use form::forms::{Form, LargeForm};
use form::number::Number;
use table::rows::{self, Entry};

// One byte past the longest message, enough to tell that a message is too long.
const MESSAGE: usize = LargeForm::BYTES + 1;

// The sizes of the reader's buffers.
const TEXT: usize = LargeForm::BYTES;

const SEGMENTS: usize = LargeForm::SEGMENTS * rows::SEGMENT_ROW;

const LEAVES: usize = LargeForm::LEAVES * rows::LEAF_ROW;

fn main(rt: HostRuntime) {
    let mut message = [0; MESSAGE];
    let mut text = [0; TEXT];
    let mut segments = [0; SEGMENTS];
    let mut leaves = [0; LEAVES];
    answer_input(&rt, &mut message, &mut text, &mut segments, &mut leaves);
}

// Takes in the message and says what there is to say of it. The buffers come as arrays: their types
// state their lengths then, and no proof counts a megabyte.
// kept (proof): with slices the bounds of main's slices (`slice_bounds-message-end`) ran out of stack
fn answer_input(
    rt: &(impl Input + Print),
    message: &mut [u8; MESSAGE],
    text: &mut [u8; TEXT],
    segments: &mut [Entry; SEGMENTS],
    leaves: &mut [Entry; LEAVES],
) {
    let Ok(bytes) = input::read_input(&mut rt.reader(), message) else {
        return;
    };
    put_answer(rt, &message[..bytes], text, segments, leaves);
}

// Reads a message; says why it is refused, or the verdict on its table.
fn put_answer(
    rt: &impl Print,
    message: &[u8],
    text: &mut [u8; TEXT],
    segments: &mut [Entry; SEGMENTS],
    leaves: &mut [Entry; LEAVES],
) {
    let answer = read::read(Form::Large, message, text, segments, leaves);
    if answer.number == Number::ACCEPTED {
        let table = Lent {
            card: answer.card,
            segments,
            leaves,
            text,
        };
        put_verdict(rt, &table);
    } else {
        put_refused(rt, answer.number, answer.place);
    }
}
