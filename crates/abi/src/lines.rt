// The line walk (P1, P2), one line a call: the caller keeps the place.
ghost use Rattle.std.specs.Prelude.{[], ◌∷◌, ◌≡◌};
ghost use Rattle.form.specs.Forms.{small_form};
ghost use Rattle.line.specs.Finding.{found_at};
ghost use Rattle.abi.specs.Lines.{FoundLine};
ghost use Rattle.abi.specs.Putting.{put_all};

use crate::answer;
use form::number::Number;
use line::finder::Found;

// How many numbers an answer has: where the line ends, and where the next one begins.
const ANSWER: usize = 2;

// The line that begins at a place. At the end and at a fault the next line begins at the place itself, so that a walk that goes on there
// hears the same again.
#[unsafe(no_mangle)]
pub extern "C" fn sargaceu_line(message: &[u8], at: usize, answer: &mut [usize]) -> u8
    ensures { FoundLine (found_at small_form message.now at) at answer.old result answer.new }
{
    if answer.len() < ANSWER {
        return Number::SHORT_BUFFER;
    }
    match line::finder::line_at(message, at) {
        Found::Line { end, next } => told(answer, Number::ACCEPTED, end, next),
        Found::End => told(answer, Number::ACCEPTED, at, at),
        Found::Fault { number, place } => told(answer, number, place, at),
    }
}

// A number, with two numbers put into the answer.
fn told(answer: &mut [usize], number: u8, end: usize, next: usize) -> u8
    ensures { (result ≡ number) × (answer.new ≡ put_all answer.old (end ∷ next ∷ [])) }
{
    let numbers = [end, next];
    answer::put_numbers(answer, &numbers);
    number
}
