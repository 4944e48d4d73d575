// The lookups of a leaf by its place: among all counted leaf rows (F1), and among those that its segment row names (F4).
ghost use Rattle.std.specs.Prelude.{ℕ, ◌≡◌, ◌+◌, ◌*◌, ◌-◌, ◌≤◌, length};
ghost use Rattle.laws.specs.Lists.{same};
ghost use Rattle.laws.specs.Parts.{whole_of};
ghost use Rattle.table.specs.Lent.{lent};
ghost use Rattle.table.specs.Rows.{leaf_row_size, place_in};
ghost use Rattle.look.specs.Looking.{numbers_of, fits, sought_number};
ghost use Rattle.look.specs.Matches.{looked_up};
ghost use Rattle.look.specs.inner.Searching.{found_of, sought_from, sought_in, sought_in_segment, Tells};

use table::{Card, rows};

// The place of a leaf (S5): the number of its segment's row, and the four numbers that tell it from the other leaves of the segment.
#[derive(Clone, Copy)]
pub struct Place {
    pub segment: rows::Entry,
    pub field: rows::Entry,
    pub repetition: rows::Entry,
    pub subfield: rows::Entry,
    pub subsubfield: rows::Entry,
}

// What a lookup of a leaf answers (F1): the start in the text area and the length, 1 or more, of its text; or that it is there with no text; or
// that it is not there.
#[derive(Clone, Copy)]
pub enum Sought {
    At(usize, usize),
    Empty,
    NotThere,
}

impl Sought {
    // The answer as a number: 1 found, 2 found empty, 0 not there.
    // kept (C): a method and no `From`, since the public `number` ensures `sought_number`, the number that C gets.
    pub fn number(self) -> u8
        ensures { result ≡ sought_number self }
    {
        match self {
            Sought::At(_, _) => 1,
            Sought::Empty => 2,
            Sought::NotThere => 0,
        }
    }
}

// The leaf at a place (F1): what the first row says that has the place and stays within the card's text. Not there where there is no such row,
// or where the card counts more than some buffer holds. It goes over all counted leaf rows: any buffers may be lent, so the leaves of a
// segment need not lie together nor be where its segment row says.
pub fn find_leaf(
    card: Card,
    segments: &[rows::Entry],
    leaves: &[rows::Entry],
    text: &[u8],
    place: Place,
) -> Sought
    ensures { result ≡ sought_in (lent card segments.now leaves.now text.now) place }
{
    if rows::counts_fit(card, segments.len(), leaves.len(), text.len()) {
        first_leaf(
            leaves,
            0,
            card.leaves,
            card.text,
            |row| is_at(leaves, row, place),
        )
    } else {
        Sought::NotThere
    }
}

// The same among the counted leaf rows that the segment row of the place names (F4): of every table that some message reads to, the same answer
// (`look/proofs/SameAnswer.antt`), found in at most as many steps as the segment has leaves. Not there, too, where the place names no counted
// segment row, or that row's first leaf is 0.
pub fn find_leaf_in_segment(
    card: Card,
    segments: &[rows::Entry],
    leaves: &[rows::Entry],
    text: &[u8],
    place: Place,
) -> Sought
    ensures { result ≡ sought_in_segment (lent card segments.now leaves.now text.now) place }
{
    let number = rows::wide(place.segment);
    if card.segments < number {
        return Sought::NotThere;
    }
    if !rows::counts_fit(card, segments.len(), leaves.len(), text.len()) {
        return Sought::NotThere;
    }
    if number < 1 {
        return Sought::NotThere;
    }
    let at = (number - 1) * rows::SEGMENT_ROW;
    let first = rows::wide(segments[at + rows::FIRST]);
    if first < 1 {
        return Sought::NotThere;
    }
    let from = first - 1;
    let to = card
        .leaves
        .min(from + rows::wide(segments[at + rows::COUNT]));
    first_leaf(
        leaves,
        from,
        to,
        card.text,
        |row| is_at_by_field(leaves, row, place),
    )
}

// The text of the leaf at a place (F1): no copy, but that part of the lent text area, told by block, offset and bytes; an empty part where the
// leaf is there with no text; the lent substitute itself where it is not there.
pub fn leaf_text<'a>(
    card: Card,
    segments: &[rows::Entry],
    leaves: &[rows::Entry],
    text: &'a [u8],
    place: Place,
    substitute: &'a [u8],
) -> &'a [u8]
    ensures { whole_of result ≡ looked_up card segments.now leaves.now text.entry place substitute.entry }
{
    match find_leaf(card, segments, leaves, text, place) {
        Sought::At(start, length) => {
            let end = start + length;
            &text[start..end]
        }
        Sought::Empty => &text[0..0],
        Sought::NotThere => substitute,
    }
}

// What the first leaf row says, of those from one on and before another, counted from 0, that has the place and stays within so many bytes.
fn first_leaf<F: Fn(usize) -> bool>(
    leaves: &[rows::Entry],
    from: usize,
    to: usize,
    bytes: usize,
    has_place: F,
) -> Sought
    requires within { to * leaf_row_size ≤ length leaves.now }
    requires asks { (row : ℕ) → (row + 1) * leaf_row_size ≤ length leaves.now → F.pre has_place row }
    ensures { (place : Place) → Tells (F.post has_place) leaves.now place
        → result ≡ sought_from (fits leaves.now bytes place) leaves.now from (to - from) }
{
    for row in from..to {
        if has_place(row) {
            let at = row * rows::LEAF_ROW;
            let start = rows::wide(leaves[at + rows::START]);
            let length = rows::wide(leaves[at + rows::LENGTH]);
            if start + length <= bytes {
                return found(start, length);
            }
        }
    }
    Sought::NotThere
}

// What a row's start and length come to.
fn found(start: usize, length: usize) -> Sought
    ensures { result ≡ found_of start length }
{
    if length == 0 {
        Sought::Empty
    } else {
        Sought::At(start, length)
    }
}

// Whether a leaf row, counted from 0, is that of a place.
fn is_at(leaves: &[rows::Entry], row: usize, place: Place) -> bool
    requires { (row + 1) * leaf_row_size ≤ length leaves.now }
    ensures { result ≡ same (place_in leaves.now row) (numbers_of place) }
{
    let at = row * rows::LEAF_ROW;
    leaves[at] == place.segment
        && leaves[at + rows::FIELD] == place.field
        && leaves[at + rows::REPETITION] == place.repetition
        && leaves[at + rows::SUBFIELD] == place.subfield
        && leaves[at + rows::SUBSUBFIELD] == place.subsubfield
}

// The same, asked for the field first, which tells most rows of a segment apart.
fn is_at_by_field(leaves: &[rows::Entry], row: usize, place: Place) -> bool
    requires { (row + 1) * leaf_row_size ≤ length leaves.now }
    ensures { result ≡ same (place_in leaves.now row) (numbers_of place) }
{
    leaves[row * rows::LEAF_ROW + rows::FIELD] == place.field && is_at(leaves, row, place)
}
