// Owners (O2, O3), row by row as rows are read.
ghost use Rattle.std.specs.Prelude.{◌≡◌, ◌≤◌};
ghost use Rattle.order.specs.inner.Owning.{level_place, no_rows, Owned};

use form::kind::Kind;

// The number of a row, or 0: one number of a table's rows, which takes its width from here.
pub type Row = u32;

// What is known of the rows so far has a place for each level from 0 to 7, and one above all levels.
pub const PLACES: usize = 9;

const ABOVE: usize = 8;

// What is known before any row: at place l stands the row of the nearest segment, C aside, with a level below l, or 0. Place 8 is
// above all levels.
pub fn no_rows() -> [Row; PLACES]
    ensures { result ≡ no_rows }
{
    [0; PLACES]
}

// The owner of the next row (O2, O3), by what is known of the rows before it, which the row is then added to. A level over 8 counts as 8. The
// loop goes over all places, whatever the row's own is: with a fixed number of turns it is compiled to straight code.
pub fn owner_of(nearest: &mut [Row; PLACES], row: Row, kind: u8, level: u8) -> Row
    ensures { Owned nearest.old nearest.new row kind level result }
{
    let place = place_of(kind, level);
    let owner = nearest[place];
    let mut next = 1;
    while next < PLACES {
        let above = next;
        next += 1;
        if place < above {
            nearest[above] = row;
        }
    }
    owner
}

// The place of a kind: its level; C, which has none and is near to nothing, goes by the last.
fn place_of(kind: u8, level: u8) -> usize
    ensures { (result ≡ level_place kind level) × (result ≤ 8) }
{
    if kind == Kind::C {
        return ABOVE;
    }
    let place = level as usize;
    if place < ABOVE {
        return place;
    }
    ABOVE
}
