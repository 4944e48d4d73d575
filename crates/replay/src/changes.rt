// Changes of a table, each of three numbers: which part of it, the place there counted from 0, the
// new number.
use table::Card;
use table::rows::Entry;

// The parts of a table, as a case numbers them.
// kept (plainer): `change_all` alone matches them; an enum would be made there and matched at once
const CARD: Entry = 0;

const SEGMENTS: Entry = 1;

const LEAVES: Entry = 2;

const TEXT: Entry = 3;

// Makes all changes in order. One that is behind what is lent changes nothing.
pub fn change_all(
    changes: &[Entry],
    card: &mut Card,
    text: &mut [u8],
    segments: &mut [Entry],
    leaves: &mut [Entry],
) {
    for change in changes.chunks_exact(3) {
        if let [part, place, number] = *change {
            match part {
                CARD => change_card(card, place as usize, number),
                SEGMENTS => set(segments, place as usize, number),
                LEAVES => set(leaves, place as usize, number),
                TEXT => set(text, place as usize, (number % 256) as u8),
                _ => {}
            }
        }
    }
}

// Sets a number of the card. The first two are below 256, which the remainder says to the proof.
fn change_card(card: &mut Card, place: usize, number: Entry) {
    match place {
        0 => card.separator = (number % 256) as u8,
        1 => card.context = (number % 256) as u8,
        2 => card.segments = number as usize,
        3 => card.leaves = number as usize,
        4 => card.text = number as usize,
        _ => {}
    }
}

// Sets an element if there is one at the place.
fn set<T: Drop>(elements: &mut [T], place: usize, new: T) {
    if let Some(element) = elements.get_mut(place) {
        *element = new;
    }
}
