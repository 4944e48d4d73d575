// Tables of an archive, whose rows hold numbers of 16 bits, brought over to today's rows and owners (rules B1 to B3).
#![tactic(auto)]

mod owned;
mod putting;
pub mod refusal;
mod rereading;

ghost use Rattle.std.specs.Prelude.{◌≡◌};
ghost use Rattle.form.specs.Forms.{small_form};
ghost use Rattle.table.specs.Lent.{lent};
ghost use Rattle.table.specs.Reading.{refused};
ghost use Rattle.read.specs.Answering.{answer_of};
ghost use Rattle.archive.specs.Widening.{WidenedAs};
ghost use Rattle.archive.specs.inner.Asked.{Widenable};
ghost use Rattle.archive.specs.inner.OwnedRows.{PutNow};

use crate::owned::put_rows;
use crate::putting::{put_bytes, put_numbers};
use crate::refusal::Refusal;
use crate::rereading::ever_read;
use form::forms::SmallForm;
use form::number::Number;
use order::levels;
use read::Answer;
use table::Card;
use table::rows::{Entry, LEAF_ROW, SEGMENT_ROW};

// One number of an archived row.
pub type Narrow = u16;

// Widens an archived table into new buffers of the small form: any card and any buffers. New buffers under the small form's sizes are refused
// with 1 as the reader does; then a table that no reader gave with 46 (B2). What comes out is what reading its message gives now (B1), so an
// older table gets the owners in force. Nothing is stored before all is known (B3).
pub fn widen(
    card: Card,
    segments: &[Narrow],
    leaves: &[Narrow],
    text: &[u8],
    new_text: &mut [u8],
    new_segments: &mut [Entry],
    new_leaves: &mut [Entry],
) -> Answer
    ensures { WidenedAs small_form (lent card segments.now leaves.now text.now)
        new_text.old new_segments.old new_leaves.old
        result new_text.new new_segments.new new_leaves.new }
{
    if new_text.len() < SmallForm::BYTES
        || new_segments.len() < SmallForm::SEGMENTS * SEGMENT_ROW
        || new_leaves.len() < SmallForm::LEAVES * LEAF_ROW
    {
        return refuse(Number::SHORT_BUFFER);
    }
    if !ever_read(card, segments, leaves, text) {
        return refuse(Refusal::NEVER_READ);
    }
    put_table(
        card,
        segments,
        leaves,
        text,
        new_text,
        new_segments,
        new_leaves,
    );
    Answer {
        number: Number::ACCEPTED,
        place: 0,
        card,
    }
}

// Puts a table that a reader gave into the new buffers: text and leaf rows as they are, segment rows with the owners in force.
fn put_table(
    card: Card,
    segments: &[Narrow],
    leaves: &[Narrow],
    text: &[u8],
    new_text: &mut [u8],
    new_segments: &mut [Entry],
    new_leaves: &mut [Entry],
)
    requires { Widenable small_form (lent card segments.now leaves.now text.now) new_text.old new_segments.old new_leaves.old }
    ensures { PutNow (lent card segments.now leaves.now text.now)
        new_text.old new_segments.old new_leaves.old
        new_text.new new_segments.new new_leaves.new }
{
    let size = card.segments * SEGMENT_ROW;
    let many = card.leaves * LEAF_ROW;
    let end = card.text;
    let levels = levels::table();
    put_bytes(&text[..end], new_text);
    put_rows(
        &levels,
        card.context,
        &segments[..size],
        card.segments,
        new_segments,
    );
    put_numbers(&leaves[..many], new_leaves);
}

// A refusal: its place is 0, and its card is all zero (N3).
#[tactic(auto, unfolding(read::specs::Answering::answer_of))]
fn refuse(number: u8) -> Answer
    ensures { result ≡ answer_of (refused number 0) }
{
    Answer {
        number,
        place: 0,
        card: Card {
            separator: 0,
            context: 0,
            segments: 0,
            leaves: 0,
            text: 0,
        },
    }
}
