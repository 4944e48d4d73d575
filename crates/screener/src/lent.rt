// A table that the reader made, with what its rows say: their kinds, and leaves by their names (S5).
use form::kind::Kind;
use look::leaf::{Place, Sought, find_leaf_in_segment};
use look::text::same_bytes;
use table::Card;
use table::rows::{self, Entry};

// The field of a result that has its code, 10.4.
const CODE: Entry = 4;

// The card and the buffers that it speaks of. Rows count from 1, as a verdict counts them.
#[derive(Clone, Copy)]
pub struct Lent<'a> {
    pub card: Card,
    pub segments: &'a [Entry],
    pub leaves: &'a [Entry],
    pub text: &'a [u8],
}

impl Lent<'_> {
    // The kind of a row, if there is such a row.
    pub fn kind_of(&self, row: usize) -> Option<u8> {
        let at = row.checked_sub(1)?.checked_mul(rows::SEGMENT_ROW)?;
        let kind = self.segments.get(at)?;
        u8::try_from(*kind).ok()
    }

    // The leaf of a row by its field and subfield; not there where there is no such row.
    pub fn leaf_of(&self, row: usize, field: Entry, subfield: Entry) -> Sought {
        match place_of(row, field, subfield) {
            Some(place) => {
                find_leaf_in_segment(self.card, self.segments, self.leaves, self.text, place)
            }
            None => Sought::NotThere,
        }
    }

    // How many results behind a patient's row, up to the next patient, have a code.
    pub fn count_coded(&self, patient: usize, code: &[u8]) -> usize {
        let mut count = 0;
        for before in patient..self.card.segments {
            let row = before + 1;
            if self.kind_of(row) == Some(Kind::P) {
                break;
            }
            if self.is_coded(row, code) {
                count += 1;
            }
        }
        count
    }

    // Whether a row is a result with this code, 10.4.1.
    fn is_coded(&self, row: usize, code: &[u8]) -> bool {
        // kept (proof): the theorems that shut out a wrong comparing are about `same_bytes`
        self.kind_of(row) == Some(Kind::OBX) && same_bytes(self.text_of(row, CODE, 1), code)
    }

    // The text of a row's leaf by its field and subfield; none where it is empty or not there.
    fn text_of(&self, row: usize, field: Entry, subfield: Entry) -> &[u8] {
        match place_of(row, field, subfield) {
            Some(place) => look::leaf::leaf_text(
                self.card,
                self.segments,
                self.leaves,
                self.text,
                place,
                &[],
            ),
            None => &[],
        }
    }
}

// The place of a row's leaf by its field and subfield, where the row has a number in a table (T1).
fn place_of(row: usize, field: Entry, subfield: Entry) -> Option<Place> {
    let segment = Entry::try_from(row).ok()?;
    Some(Place {
        segment,
        field,
        repetition: 1,
        subfield,
        subsubfield: 1,
    })
}
