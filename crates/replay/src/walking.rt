// Operation 6: the line walk. A function that holds a `line::walk::Walk` would need a proof by
// hand, so the walk is taken here by what `look`, `part` and `go_on` hand on: `line_at`,
// `line_part` and `next_place` at the walk's message and place.
use crate::input::CaseReader;
use crate::stop::Stop;
use crate::sums::sum;
use line::finder::{Found, line_at, line_part, next_place};
use std::io::Read;

// No message has as many lines as there is room for bytes: that ends the walk with no proof that a
// line goes on.
const MOST_LINES: usize = 65792;

// What each call gives until one gives the end or a fault, which stay where they are, and for two
// calls more.
pub fn run<R: Read + Drop>(rt: &impl Print, input: &mut CaseReader<R>) -> Result<(), Stop> {
    let message = input.bytes()?;
    let _ = print!(rt; "6");
    let at = walk(rt, &message);
    put_call(rt, &message, at);
    put_call(rt, &message, at);
    let _ = println!(rt; "");
    Ok(())
}

// Walks until a call stays where it is, and answers that place.
fn walk(rt: &impl Print, message: &[u8]) -> usize {
    let mut at = 0;
    for _ in 0..MOST_LINES {
        put_call(rt, message, at);
        let next = next_place(message, at);
        if next == at {
            break;
        }
        at = next;
    }
    at
}

// What the call at a place gives: for a line 1, its length and its sum, for the end 0, for a fault
// its number and its place.
fn put_call(rt: &impl Print, message: &[u8], at: usize) {
    let _ = match line_at(message, at) {
        Found::Line { .. } => {
            let part = line_part(message, at);
            print!(rt; " 1 {} {}", part.len(), sum(part))
        }
        Found::End => print!(rt; " 0"),
        Found::Fault { number, place } => print!(rt; " {number} {place}"),
    };
}
