// Operations 1 and 10001: a message into a table in lent buffers.
use crate::buffers::{Buffers, Lent};
use crate::input::CaseReader;
use crate::stop::Stop;
use crate::sums::sum;
use form::forms::Form;
use read::{Answer, read};
use std::io::Read;
use table::rows::Entry;

// Reads the message into buffers of the lengths that follow it.
pub fn run<R: Read + Drop>(
    rt: &impl Print,
    input: &mut CaseReader<R>,
    operation: Entry,
    form: Form,
    buffers: &mut Buffers,
) -> Result<(), Stop> {
    let message = message_of(form, input)?;
    let Lent {
        text,
        segments,
        leaves,
    } = buffers.lend_filled(input.numbers()?)?;
    let answer = read(form, &message, text, segments, leaves);
    let _ = print!(rt; "{operation}");
    put_filing(rt, answer, text, segments, leaves);
    let _ = println!(rt; "");
    Ok(())
}

// A message of a form: bytes in the small form, in parts in the large form.
fn message_of<R: Read + Drop>(form: Form, input: &mut CaseReader<R>) -> Result<Vec<u8>, Stop> {
    match form {
        Form::Small => input.bytes(),
        Form::Large => input.parts(),
    }
}

// The number, the place and the card's five numbers, and the sums of the three buffers.
pub fn put_filing(
    rt: &impl Print,
    answer: Answer,
    text: &[u8],
    segments: &[Entry],
    leaves: &[Entry],
) {
    let card = answer.card;
    let _ = print!(rt; " {} {}", answer.number, answer.place);
    let _ = print!(rt; " {} {}", card.separator, card.context);
    let _ = print!(rt; " {} {} {}", card.segments, card.leaves, card.text);
    let _ = print!(rt; " {} {} {}", sum(text), sum(segments), sum(leaves));
}
