// The lookups (F1 to F4).
ghost use Rattle.std.specs.Prelude.{◌≡◌};
ghost use Rattle.table.specs.Lent.{lent};
ghost use Rattle.look.specs.inner.Searching.{row_after, same_order};
ghost use Rattle.abi.specs.Cards.{card_of};
ghost use Rattle.abi.specs.Looking.{given_place, TellsSought, FoundLeaf, FoundLeafInSegment};

use crate::{answer, card};
use look::leaf::{Place, Sought};
use table::rows;

// The leaf at a place (F1): 1 found, 2 found empty, 0 not there. Where its text starts and how long it is go into the answer.
#[unsafe(no_mangle)]
pub extern "C" fn sargaceu_find_leaf(
    card: &[usize],
    segments: &[rows::Entry],
    leaves: &[rows::Entry],
    text: &[u8],
    segment: rows::Entry,
    field: rows::Entry,
    repetition: rows::Entry,
    subfield: rows::Entry,
    subsubfield: rows::Entry,
    answer: &mut [usize],
) -> u8
    ensures { FoundLeaf (lent (card_of card.now) segments.now leaves.now text.now)
        (given_place segment field repetition subfield subsubfield) answer.old result answer.new }
{
    let place = Place {
        segment,
        field,
        repetition,
        subfield,
        subsubfield,
    };
    let sought = look::leaf::find_leaf(card::card_of(card), segments, leaves, text, place);
    tell_sought(sought, answer)
}

// The same among the leaf rows that the segment row of the place names (F4).
#[unsafe(no_mangle)]
pub extern "C" fn sargaceu_find_leaf_in_segment(
    card: &[usize],
    segments: &[rows::Entry],
    leaves: &[rows::Entry],
    text: &[u8],
    segment: rows::Entry,
    field: rows::Entry,
    repetition: rows::Entry,
    subfield: rows::Entry,
    subsubfield: rows::Entry,
    answer: &mut [usize],
) -> u8
    ensures { FoundLeafInSegment (lent (card_of card.now) segments.now leaves.now text.now)
        (given_place segment field repetition subfield subsubfield) answer.old result answer.new }
{
    let place = Place {
        segment,
        field,
        repetition,
        subfield,
        subsubfield,
    };
    let sought = look::leaf::find_leaf_in_segment(
        card::card_of(card),
        segments,
        leaves,
        text,
        place,
    );
    tell_sought(sought, answer)
}

// The number of what was sought. Start and length go into the answer, and 0 and 0 for a leaf that is empty: who takes every leaf that is there
// by its start and length then gets an empty text, and not what the answer held before.
fn tell_sought(sought: Sought, answer: &mut [usize]) -> u8
    ensures { TellsSought sought answer.old result answer.new }
{
    let number = sought.number();
    match sought {
        Sought::At(start, length) => {
            let numbers = [start, length];
            answer::put_numbers(answer, &numbers);
            number
        }
        Sought::Empty => {
            let numbers = [0, 0];
            answer::put_numbers(answer, &numbers);
            number
        }
        Sought::NotThere => number,
    }
}

// The next row behind row `after` that has a kind and an owner, or 0 (F2).
#[unsafe(no_mangle)]
pub extern "C" fn sargaceu_next_row(
    card: &[usize],
    segments: &[rows::Entry],
    after: usize,
    kind: rows::Entry,
    owner: rows::Entry,
) -> usize
    ensures { result ≡ row_after segments.now (card_of card.now).segments after kind owner }
{
    look::row::next_row(card::card_of(card), segments, after, kind, owner)
}

// Whether a row of one table and a row of another are the same order (F3).
#[unsafe(no_mangle)]
pub extern "C" fn sargaceu_same_order(
    card: &[usize],
    segments: &[rows::Entry],
    leaves: &[rows::Entry],
    text: &[u8],
    row: rows::Entry,
    other_card: &[usize],
    other_segments: &[rows::Entry],
    other_leaves: &[rows::Entry],
    other_text: &[u8],
    other_row: rows::Entry,
) -> bool
    ensures { result
        ≡ same_order (lent (card_of card.now) segments.now leaves.now text.now) row
        (lent (card_of other_card.now) other_segments.now other_leaves.now other_text.now) other_row }
{
    look::order_rows::same_order(
        card::card_of(card),
        segments,
        leaves,
        text,
        row,
        card::card_of(other_card),
        other_segments,
        other_leaves,
        other_text,
        other_row,
    )
}
