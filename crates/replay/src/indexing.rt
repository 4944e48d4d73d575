// Operations 107 and 10107: messages that are read one after another, each lent the index and the
// tally that the last one left. Each is taken in when it is read.
use crate::buffers::{Buffers, Lent};
use crate::filing::put_filing;
use crate::indexes::Index;
use crate::input::CaseReader;
use crate::stop::Stop;
use form::forms::Form;
use index::tally::Tally;
use read::indexed::read_indexed;
use std::io::Read;
use table::rows::Entry;

// Takes in the index, the tally, the lengths of the buffers and how many messages follow, and then
// reads each message. Where the input ends among them, the line stays unended.
pub fn run<R: Read + Drop>(
    rt: &impl Print,
    input: &mut CaseReader<R>,
    operation: Entry,
    form: Form,
    buffers: &mut Buffers,
) -> Result<(), Stop> {
    let mut index = Index::take_in(input)?;
    input.begin();
    let mut tally = tally_of(input.numbers()?);
    let lengths = input.numbers()?;
    let messages = input.number()?;
    let _ = print!(rt; "{operation}");
    for _ in 0..messages {
        let message = message_of(form, input)?;
        tally = read_one(rt, form, &message, tally, lengths, buffers, &mut index)?;
    }
    let _ = println!(rt; "");
    Ok(())
}

// The tally of three numbers.
fn tally_of(numbers: [Entry; 3]) -> Tally {
    let [messages, segments, results] = numbers;
    Tally {
        messages,
        segments,
        results,
    }
}

// A message of a form: bytes in the small form, in parts in the large form.
fn message_of<R: Read + Drop>(form: Form, input: &mut CaseReader<R>) -> Result<Vec<u8>, Stop> {
    match form {
        Form::Small => input.message(),
        Form::Large => input.parts(),
    }
}

// Reads a message into the buffers of a table, which are filled before; the index stays as the last
// message left it. Puts what came back, and answers the tally.
fn read_one(
    rt: &impl Print,
    form: Form,
    message: &[u8],
    before: Tally,
    lengths: [Entry; 3],
    buffers: &mut Buffers,
    index: &mut Index,
) -> Result<Tally, Stop> {
    let Lent {
        text,
        segments,
        leaves,
    } = buffers.lend_filled(lengths)?;
    let indexed = read_indexed(
        before,
        form,
        message,
        text,
        segments,
        leaves,
        &mut index.codes,
        &mut index.counts,
    );
    let tally = indexed.tally;
    put_filing(rt, indexed.answer, text, segments, leaves);
    let _ = print!(rt; " {} {} {}", tally.messages, tally.segments, tally.results);
    index.put_sums(rt);
    Ok(tally)
}
