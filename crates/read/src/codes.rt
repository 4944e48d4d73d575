// The analysis code of a segment (X2): 10.4.1 in its first repetition, gathered from the lines that
// the segment takes.
ghost use Rattle.std.specs.Prelude.{true, false, ◌≡◌, ◌+◌, ◌-◌, ◌≤◌, ◌<◌, eqb, length, get_or, drop};
ghost use Rattle.index.specs.Index.{code_most};
ghost use Rattle.read.specs.inner.Scanning.{plain_run};
ghost use Rattle.read.specs.inner.Coding.{Skips, FieldsSkipped, kept, TakesLine, LineTaken, CodeAhead, CodeTaken, code_of_row};

use crate::decide::Decision;
use crate::start::text_from;
use form::limits::Limits;
use index::CODE;
use line::finder::low_end;
use table::class::index;

// A segment's code that may go on: the field separators that are to come up to the one that ends
// field 4, 1 in that field itself; how many bytes the code has so far; and where its line is looked
// at next.
#[derive(Clone, Copy)]
pub struct Taken {
    pub left: usize,
    pub length: usize,
    pub at: usize,
}

// A message that was decided on, with what deciding noted of it: the classes of its bytes, and of
// each segment its kind and where it begins.
#[derive(Clone, Copy)]
pub struct Accepted<'a> {
    pub class: &'a [u8; 256],
    pub kinds: &'a [u8],
    pub starts: &'a [usize],
    pub limits: Limits,
    pub decision: Decision,
    pub message: &'a [u8],
}

// How far a line brings the code: it is whole, with so many bytes, or it may go on behind the line,
// which ends at `at`.
#[derive(Clone, Copy)]
pub enum Reached {
    Whole(usize),
    Open(Taken),
}

// Where the text ends that begins at `from`. A byte that is none lies ahead, so the loop tests no
// bound.
fn plain_end(class: &[u8; 256], message: &[u8], from: usize) -> usize
    requires { from + plain_run class.now (drop from message.now) < length message.now }
    ensures { result ≡ from + plain_run class.now (drop from message.now) }
{
    let mut at = from;
    // kept (plainer): a byte that is no text lies ahead, so this needs no end or answer for none
    while class[index(message[at])] == 0 {
        at += 1;
    }
    at
}

// Over the fields before the code, up to its own, or to the line's end. Most bytes are text: only
// the others are asked what they are.
fn skip_fields(class: &[u8; 256], message: &[u8], taken: Taken) -> Taken
    requires { Skips class.now message.now taken.at taken.left }
    ensures { FieldsSkipped class.now message.now taken result }
{
    let length = taken.length;
    let mut left = taken.left;
    let mut at = taken.at;
    // kept (plainer): each turn goes on behind a stretch of text, so there is no range to go over
    while left != 1 {
        let stop = plain_end(class, message, at);
        let sort = class[index(message[stop])];
        if sort == 5 {
            return Taken {
                left,
                length,
                at: stop,
            };
        }
        at = stop + 1;
        left = fields_left(left, sort);
    }
    Taken { left, length, at }
}

// What a line has of the code: the fields before it are gone over first.
fn take_from_line(class: &[u8; 256], message: &[u8], taken: Taken, code: &mut [u8]) -> Reached
    requires { TakesLine class.now message.now taken code.old }
    ensures { LineTaken class.now message.now taken code.old result code.new }
{
    take_line(class, message, skip_fields(class, message, taken), code)
}

// The same from any field on, byte by byte. Of a code that is too long the first 22 bytes are kept.
fn take_line(class: &[u8; 256], message: &[u8], taken: Taken, code: &mut [u8]) -> Reached
    requires { TakesLine class.now message.now taken code.old }
    ensures { LineTaken class.now message.now taken code.old result code.new }
{
    let mut left = taken.left;
    let mut length = taken.length;
    let mut at = taken.at;
    // kept (plainer): a byte of class 5 lies ahead, so an answer behind a `for` would never come
    loop {
        let b = message[at];
        let sort = class[index(b)];
        if sort == 5 {
            return Reached::Open(Taken { left, length, at });
        }
        at += 1;
        if left == 1 {
            if sort != 0 {
                return Reached::Whole(length);
            }
            keep(code, length, b);
            length += 1;
        } else {
            left = fields_left(left, sort);
        }
    }
}

// A byte of the code, where there is room for it.
fn keep(code: &mut [u8], at: usize, b: u8)
    requires { code_most ≤ length code.old }
    ensures { code.new ≡ kept code.old at b }
{
    if at < CODE {
        code[at] = b;
    }
}

// The field separators that are to come behind a byte of a sort.
fn fields_left(left: usize, sort: u8) -> usize
    requires { 1 ≤ left }
    ensures { result ≡ elim (eqb sort 1) [ true ↦ left - 1 | false ↦ left ] }
{
    if sort == 1 { left - 1 } else { left }
}

// The code of a segment by its row: how many bytes it has, of which the first 22 are kept; 0 where
// it is absent or empty.
pub(crate) fn take_code(accepted: &Accepted, row: usize, code: &mut [u8]) -> usize
    requires { CodeAhead accepted.now.limits accepted.now.class.now accepted.now.kinds.now accepted.now.decision.separators accepted.now.decision.context
        accepted.now.message.now row (get_or accepted.now.starts.now row 0) code.old × (row < length accepted.now.starts.now) }
    ensures { CodeTaken (code_of_row accepted.now.limits accepted.now.decision.separators accepted.now.message.now row) result code.new }
{
    let message = accepted.message;
    let mut taken = Taken {
        left: 4,
        length: 0,
        at: accepted.starts[row],
    };
    // kept (plainer): where the next line begins is known only once this one was looked at
    loop {
        match take_from_line(accepted.class, message, taken, code) {
            Reached::Whole(length) => return length,
            Reached::Open(open) => taken = open,
        }
        let at = low_end(message, taken.at + 1);
        let from = text_from(message, at, accepted.decision.separators.field);
        if from == at {
            return taken.length;
        }
        taken.at = from;
    }
}
