// Where the line lies that begins at a place of a message (L1 to L4, L6, P1).
ghost use Rattle.std.specs.Prelude.{◌≡◌, ◌+◌, ◌-◌, ◌≤◌, min, length, drop};
ghost use Rattle.form.specs.Forms.{small_form};
ghost use Rattle.laws.specs.Parts.{whole_of};
ghost use Rattle.line.specs.Finding.{text_run, low_run, found_from, found_at, next_of, part_at};
ghost use Rattle.line.specs.inner.Ending.{ended_line};

use form::forms::SmallForm;
use form::number::Number;

// The byte that ends a line (L1).
const CR: u8 = 13;

// Bytes below this are control bytes, the others text.
const SPACE: u8 = 32;

// What stands at a place where a line may begin.
#[derive(Clone, Copy)]
pub enum Found {
    // the place of its CR, and the place behind the control bytes that follow (L2)
    Line { end: usize, next: usize },
    // at or past the last byte
    End,
    // 4, 5 or 6, and its place in the message (L6)
    Fault { number: u8, place: usize },
}

// What stands at any place of any message, by the rules of a message that begins there: a control byte there, a CR too, is fault 4 (P2). Of
// a form's limits a line is judged by `line` alone, which is the same in both forms.
pub fn line_at(message: &[u8], at: usize) -> Found
    ensures { result ≡ found_at small_form message.now at }
{
    find_line(SmallForm::LINE, message, at)
}

// The same for lines of any number of bytes.
fn find_line(line: usize, message: &[u8], at: usize) -> Found
    ensures { result ≡ found_from line at (drop at message.now) }
{
    if message.len() <= at {
        return Found::End;
    }
    let stop = text_stop(line, at, message.len());
    ended_line(message, at, text_end(message, at, stop))
}

// What a line is that begins at `at` and whose text goes up to `end`, by what stands there (L1, L6). For any two places of any message.
pub fn ended_line(message: &[u8], at: usize, end: usize) -> Found
    ensures { result ≡ ended_line message.now at end }
{
    if message.len() <= end {
        return Found::Fault {
            number: Number::OPEN_LINE,
            place: end,
        };
    }
    let b = message[end];
    if SPACE <= b {
        return Found::Fault {
            number: Number::LONG_LINE,
            place: end,
        };
    }
    if b == CR {
        if at < end {
            return Found::Line {
                end,
                next: low_end(message, end + 1),
            };
        }
    }
    Found::Fault {
        number: Number::CONTROL_BYTE,
        place: end,
    }
}

// The last place where the CR of a line that begins at `at` may stand (L3), or the message's end where that comes first; `at` itself from
// the message's end on.
pub fn text_stop(line: usize, at: usize, end: usize) -> usize
    ensures { result ≡ at + min line (end - at) }
{
    if end <= at {
        return at;
    }
    if line < end - at { at + line } else { end }
}

// Where the text ends that begins at `from`, and `stop` where it goes on up to there.
fn text_end(message: &[u8], from: usize, stop: usize) -> usize
    requires { (from ≤ stop) × (stop ≤ length message.now) }
    ensures { result ≡ from + min (stop - from) (text_run (drop from message.now)) }
{
    let mut i = from;
    while i < stop {
        if message[i] < SPACE {
            return i;
        }
        i += 1;
    }
    stop
}

// Where the control bytes end that begin at `from` (L2).
pub fn low_end(message: &[u8], from: usize) -> usize
    ensures { result ≡ from + low_run (drop from message.now) }
{
    let mut i = from;
    while i < message.len() {
        if SPACE <= message[i] {
            return i;
        }
        i += 1;
    }
    i
}

// The place of the next line, and `at` itself where there is an end or a fault (P1).
pub fn next_place(message: &[u8], at: usize) -> usize
    ensures { result ≡ next_of at (found_at small_form message.now at) }
{
    match line_at(message, at) {
        Found::Line { end: _, next } => next,
        Found::End => at,
        Found::Fault {
            number: _,
            place: _,
        } => at,
    }
}

// The part of the message that is the line at a place, without its CR (P1): the lent bytes themselves, by block, offset and bytes. At an end or
// a fault it is the empty part at the message's start.
pub fn line_part(message: &[u8], at: usize) -> &[u8]
    ensures { whole_of result ≡ part_at small_form message.entry at }
{
    match line_at(message, at) {
        Found::Line { end, next: _ } => &message[at..end],
        Found::End => &message[..0],
        Found::Fault {
            number: _,
            place: _,
        } => &message[..0],
    }
}
