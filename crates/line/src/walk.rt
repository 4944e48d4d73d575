// The line walk (P1, P2): opened over a lent message of any length, it gives line after line, and then the end or the fault for ever.
ghost use Rattle.std.specs.Prelude.{◌≡◌};
ghost use Rattle.form.specs.Forms.{small_form};
ghost use Rattle.laws.specs.Parts.{whole_of};
ghost use Rattle.line.specs.Finding.{found_at, part_at};
ghost use Rattle.line.specs.Going.{walk_opened, gone_on};

use crate::finder::{Found, line_at, line_part, next_place};

// The message, and the place in it that the walk has come to.
#[derive(Clone, Copy)]
pub struct Walk<'a> {
    pub message: &'a [u8],
    pub at: usize,
}

// A walk that stands where a message begins.
pub fn open<'a>(message: &'a [u8]) -> Walk<'a>
    ensures { result ≡ walk_opened message.entry }
{
    Walk { message, at: 0 }
}

// Where the line lies that the walk stands at; or the end; or the fault with its number and place (P1).
pub fn look<'a>(walk: Walk<'a>) -> Found
    ensures { result ≡ found_at small_form walk.entry.message.now walk.entry.at }
{
    line_at(walk.message, walk.at)
}

// The line itself, the part of the lent message without its CR (P1); at the end or a fault the empty part at the message's start.
pub fn part<'a>(walk: Walk<'a>) -> &'a [u8]
    ensures { whole_of result ≡ part_at small_form walk.entry.message walk.entry.at }
{
    line_part(walk.message, walk.at)
}

// The walk at the next line. At an end or a fault it stays, and so gives the same again (P1).
pub fn go_on<'a>(walk: Walk<'a>) -> Walk<'a>
    ensures { result ≡ gone_on walk.entry }
{
    let at = next_place(walk.message, walk.at);
    Walk {
        message: walk.message,
        at,
    }
}
