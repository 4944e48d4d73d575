// Explains the answer on the message that comes on standard input: why and where it is refused,
// what was expected there and what to do about it; or, where it is accepted, what its rows are and
// on which lines they stand. The first line is the verdict in short. The command is ./explain.
// Where the input cannot be read nothing is printed, which tells it: the exit status is always 0,
// and an empty message has a line.
#![tactic(auto)]

mod accepted;
mod advice;
mod advised;
mod arguments;
mod edges;
mod excerpt;
mod expected;
mod fields;
mod flaws;
mod going;
mod header;
mod instead;
mod joined;
mod known;
mod leaves;
mod letters;
mod lookup;
mod names;
mod output;
mod place;
mod reason;
mod refused;
mod rest;
mod sequence;
mod text;
mod unicode;

use crate::accepted::write_message;
use crate::lookup::Table;
use crate::place::Refusal;
use crate::refused::write_refusal;
use crate::rest::{Length, count_input};
use form::forms::{Form, LargeForm};
use form::number::Number;
use std::env::Env;
use table::rows;

// One byte past the longest message, enough to tell that a message is too long.
const MESSAGE: usize = LargeForm::BYTES + 1;

// The sizes of the reader's buffers.
const TEXT: usize = LargeForm::BYTES;

const SEGMENTS: usize = LargeForm::SEGMENTS * rows::SEGMENT_ROW;

const LEAVES: usize = LargeForm::LEAVES * rows::LEAF_ROW;

// What the reader writes into. The buffers are arrays: their types state their lengths then, and no
// proof counts a megabyte.
#[derive(Drop)]
struct Buffers<'a> {
    text: &'a mut [u8; TEXT],
    segments: &'a mut [rows::Entry; SEGMENTS],
    leaves: &'a mut [rows::Entry; LEAVES],
}

fn main(rt: HostRuntime) {
    let mut message = [0; MESSAGE];
    let mut text = [0; TEXT];
    let mut segments = [0; SEGMENTS];
    let mut leaves = [0; LEAVES];
    let buffers = Buffers {
        text: &mut text,
        segments: &mut segments,
        leaves: &mut leaves,
    };
    answer_input(&rt, &mut message, buffers);
}

// Takes in the message, counts what does not fit, and says what there is to say of it.
fn answer_input(
    rt: &(impl Input + Env + Print),
    message: &mut [u8; MESSAGE],
    buffers: Buffers<'_>,
) {
    let mut reader = rt.reader();
    let Ok(bytes) = input::read_input(&mut reader, message) else {
        return;
    };
    let Ok(length) = count_input(&mut reader, bytes, bytes == MESSAGE) else {
        return;
    };
    let whole = &message[..];
    explain(rt, &whole[..bytes], length, buffers);
}

// Reads a message, and explains the answer.
fn explain(rt: &(impl Env + Print), message: &[u8], length: Length, buffers: Buffers<'_>) {
    let Buffers {
        text,
        segments,
        leaves,
    } = buffers;
    let form = arguments::form_asked(rt);
    let width = arguments::width_asked(rt);
    let answer = read::read(form, message, text, segments, leaves);
    if answer.number == Number::ACCEPTED {
        let table = Table {
            card: answer.card,
            segments,
            leaves,
            text,
        };
        write_message(rt, message, table, width);
        return;
    }
    let in_large = read::read(Form::Large, message, text, segments, leaves);
    let refusal = Refusal {
        number: answer.number,
        place: answer.place,
        form,
        length,
        fits_large: in_large.number == Number::ACCEPTED,
    };
    write_refusal(rt, message, refusal, width);
}
