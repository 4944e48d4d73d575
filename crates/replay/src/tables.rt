// Tables of cases.
use crate::buffers::{Buffers, Lent, cut};
use crate::changes::change_all;
use crate::input::CaseReader;
use crate::stop::Stop;
use form::forms::{Form, LargeForm};
use look::leaf::Place;
use read::read;
use std::io::Read;
use table::Card;
use table::rows::{Entry, LEAF_ROW, SEGMENT_ROW};

// A card, and what is lent with it.
#[derive(Clone, Copy)]
pub struct LentTable<'a> {
    pub card: Card,
    pub segments: &'a [Entry],
    pub leaves: &'a [Entry],
    pub text: &'a [u8],
}

// A card, and the rows and the text area that came with it.
#[derive(Drop)]
pub struct Table {
    pub card: Card,
    pub segments: Vec<Entry>,
    pub leaves: Vec<Entry>,
    pub text: Vec<u8>,
}

impl Table {
    // A table among the pieces: five numbers, the segment rows, the leaf rows, the text area.
    pub fn take_in<R: Read + Drop>(input: &mut CaseReader<R>) -> Result<Table, Stop> {
        Ok(Table {
            card: card_of(input.numbers()?),
            segments: input.row()?,
            leaves: input.row()?,
            text: input.bytes()?,
        })
    }

    // The same, lent.
    pub fn lend(&self) -> LentTable<'_> {
        LentTable {
            card: self.card,
            segments: &self.segments,
            leaves: &self.leaves,
            text: &self.text,
        }
    }
}

impl<'a> LentTable<'a> {
    // A table by reading: what the reader of the large form gives for a message in parts, then
    // changed.
    pub fn read_and_change<R: Read + Drop>(
        input: &mut CaseReader<R>,
        buffers: &'a mut Buffers,
    ) -> Result<LentTable<'a>, Stop> {
        let message = input.parts()?;
        // the message counts as one number
        input.take(1)?;
        let changes = input.row()?;
        Ok(LentTable::read(&message, &changes, buffers.lend()?))
    }

    // The table that the reader gives, its buffers cut to what the card counts, and then changed.
    fn read(message: &[u8], changes: &[Entry], lent: Lent<'a>) -> LentTable<'a> {
        let Lent {
            text,
            segments,
            leaves,
        } = lent;
        let mut card = read(Form::Large, message, text, segments, leaves).card;
        let text = cut(text, card.text);
        let segments = cut(
            segments,
            SEGMENT_ROW * card.segments.min(LargeForm::SEGMENTS),
        );
        let leaves = cut(leaves, LEAF_ROW * card.leaves.min(LargeForm::LEAVES));
        change_all(changes, &mut card, text, segments, leaves);
        LentTable {
            card,
            segments,
            leaves,
            text,
        }
    }
}

// The card of five numbers. The first two are below 256, which the remainder says to the proof.
fn card_of(numbers: [Entry; 5]) -> Card {
    let [separator, context, segments, leaves, text] = numbers;
    Card {
        separator: (separator % 256) as u8,
        context: (context % 256) as u8,
        segments: segments as usize,
        leaves: leaves as usize,
        text: text as usize,
    }
}

// The place of five numbers.
pub fn place_of(numbers: [Entry; 5]) -> Place {
    let [segment, field, repetition, subfield, subsubfield] = numbers;
    Place {
        segment,
        field,
        repetition,
        subfield,
        subsubfield,
    }
}
