// The tests of leaf rows (S2, S4, T3, T4): each row against the one before it, each text by its
// bytes.
ghost use Rattle.std.specs.Prelude.{ℕ, [], ◌∷◌, ◌≡◌, ◌<◌, ◌≤◌, suc, ◌+◌, ◌-◌, eqb, get_or, length, take, drop};
ghost use Rattle.std.specs.List.{list_all};
ghost use Rattle.laws.specs.Lists.{same};
ghost use Rattle.laws.specs.Tables.{values};
ghost use Rattle.form.specs.Header.{splitting};
ghost use Rattle.table.specs.inner.Back.{leaf_at, separators_at};
ghost use Rattle.table.specs.inner.Classes.{class_table};
ghost use Rattle.table.specs.inner.RowTests.{next_place, leaf_text, go_on_from};
ghost use Rattle.write.specs.inner.Local.{third_place};
ghost use Rattle.write.specs.inner.Tests.{Decides, Laid, finer, header_leaves_at};
ghost use Rattle.write.specs.inner.Asked.{SomeRows, TwoPlaces, LaidOut, Headed, FourWithin};

use form::separators::Separators;
use table::class::set_classes;
use table::rows;
use table::rows::Entry;

// Whether a number is one more than another.
fn one_more(before: Entry, after: Entry) -> bool
    ensures { result ≡ eqb (suc before) after }
{
    rows::wide(before) + 1 == rows::wide(after)
}

// Whether the place at `at` is that of the first leaf of its repetition.
fn first_in_repetition(rows: &[Entry], at: usize) -> bool
    requires { at + 5 ≤ length rows.now }
    ensures { result ≡ same (1 ∷ 1 ∷ []) (finer rows.now at 3) }
{
    rows[at + rows::SUBFIELD] == 1 && rows[at + rows::SUBSUBFIELD] == 1
}

// Whether it is that of the first leaf of its field.
fn first_in_field(rows: &[Entry], at: usize) -> bool
    requires { at + 5 ≤ length rows.now }
    ensures { result ≡ same (1 ∷ 1 ∷ 1 ∷ []) (finer rows.now at 2) }
{
    rows[at + rows::REPETITION] == 1 && first_in_repetition(rows, at)
}

// Whether it is that of the first leaf of its segment.
fn first_in_segment(rows: &[Entry], at: usize) -> bool
    requires { at + 5 ≤ length rows.now }
    ensures { result ≡ same (1 ∷ 1 ∷ 1 ∷ 1 ∷ []) (finer rows.now at 1) }
{
    rows[at + rows::FIELD] == 1 && first_in_field(rows, at)
}

// Whether the place at `to` comes next after the one at `from`: some number is one more, the
// coarser are the same and the finer are 1.
// kept (speed): the five numbers are compared one by one, since a loop over them took a third more.
fn next_place(rows: &[Entry], from: usize, to: usize) -> bool
    requires { TwoPlaces rows.now from to }
    ensures { result ≡ next_place (take 5 (drop from rows.now)) (take 5 (drop to rows.now)) }
{
    let segment = rows[from];
    let later_segment = rows[to];
    if segment != later_segment {
        return one_more(segment, later_segment) && first_in_segment(rows, to);
    }
    let field = rows[from + rows::FIELD];
    let later_field = rows[to + rows::FIELD];
    if field != later_field {
        return one_more(field, later_field) && first_in_field(rows, to);
    }
    next_in_field(rows, from, to)
}

// The same of two places of one field.
fn next_in_field(rows: &[Entry], from: usize, to: usize) -> bool
    requires { TwoPlaces rows.now from to }
    ensures { result ≡ next_place (finer rows.now from 2) (finer rows.now to 2) }
{
    let repetition = rows[from + rows::REPETITION];
    let later_repetition = rows[to + rows::REPETITION];
    if repetition != later_repetition {
        return one_more(repetition, later_repetition) && first_in_repetition(rows, to);
    }
    next_in_repetition(rows, from, to)
}

// The same of two places of one repetition.
fn next_in_repetition(rows: &[Entry], from: usize, to: usize) -> bool
    requires { TwoPlaces rows.now from to }
    ensures { result ≡ next_place (finer rows.now from 3) (finer rows.now to 3) }
{
    let subfield = rows[from + rows::SUBFIELD];
    let later_subfield = rows[to + rows::SUBFIELD];
    if subfield != later_subfield {
        return one_more(subfield, later_subfield) && rows[to + rows::SUBSUBFIELD] == 1;
    }
    one_more(rows[from + rows::SUBSUBFIELD], rows[to + rows::SUBSUBFIELD])
}

// Whether each byte of a text is of class 0, so that it may be a leaf's text under the separators
// that the classes are of.
fn leaf_text(class: &[u8; 256], text: &[u8]) -> bool
    ensures all { result ≡ list_all (λ b. eqb (get_or class.now b 0) 0) text.now }
    ensures bytes { (i : ℕ) → get_or text.now i 0 < 256 }
{
    text.iter().all(|byte| class[*byte as usize] == 0)
}

// Leaf rows and the text area that their texts lie in: so many leaves.
#[derive(Clone, Copy)]
pub struct Leaves<'a> {
    pub rows: &'a [Entry],
    pub text: &'a [u8],
    pub count: usize,
}

impl Leaves<'_> {
    // Whether so many leaf rows are laid out: their texts lie end to end, from 0 up to `finish`,
    // and each stands at the next place.
    pub(crate) fn laid(self, finish: usize) -> bool
        requires { SomeRows self.rows.now self.count }
        ensures { Decides result (Laid self.entry.rows.now self.entry.count finish) }
    {
        if self.rows[rows::START] != 0 {
            return false;
        }
        let mut start = rows::wide(self.rows[rows::LENGTH]);
        for i in 1..self.count {
            let at = i * rows::LEAF_ROW;
            if rows::wide(self.rows[at + rows::START]) != start {
                return false;
            }
            if !next_place(self.rows, at - rows::LEAF_ROW, at) {
                return false;
            }
            start += rows::wide(self.rows[at + rows::LENGTH]);
        }
        start == finish
    }

    // Whether leaf rows that are laid out begin after the header's two at field 3 (S4), with texts
    // that may be a leaf's from there on: these are the text from the third leaf's start on.
    pub(crate) fn go_on_from(self, separators: Separators) -> bool
        requires { Headed self.rows.now self.text.now self.count }
        ensures { result ≡ go_on_from (splitting separators) third_place
            (values (leaf_at self.entry.rows.now self.entry.text.now) 2 (self.entry.count - 2)) }
    {
        if self.rows[2 * rows::LEAF_ROW + rows::FIELD] != 3 {
            return false;
        }
        let mut class = [0u8; 256];
        set_classes(&mut class, separators);
        let start = rows::wide(self.rows[2 * rows::LEAF_ROW + rows::START]);
        leaf_text(&class, &self.text[start..])
    }

    // Whether the first two of leaf rows that are laid out are a header's: `H` in field 1, four
    // bytes in field 2 (S4).
    pub(crate) fn header_leaves(self) -> bool
        requires { LaidOut self.rows.now self.text.now self.count }
        ensures { result ≡ header_leaves_at self.entry.rows.now self.entry.text.now }
    {
        if self.rows[0] != 1 {
            return false;
        }
        if !first_in_segment(self.rows, 0) {
            return false;
        }
        if self.rows[rows::LENGTH] != 1 {
            return false;
        }
        if self.text[rows::wide(self.rows[rows::START])] != b'H' {
            return false;
        }
        if self.rows[rows::LEAF_ROW + rows::FIELD] != 2 {
            return false;
        }
        self.rows[rows::LEAF_ROW + rows::LENGTH] == 4
    }

    // The separators of a table: the card has the field separator (T5), the text of the second leaf
    // the others (S4).
    pub(crate) fn separators_at(self, field: u8) -> Separators
        requires { FourWithin self.rows.now self.text.now }
        ensures { result ≡ separators_at field self.entry.rows.now self.entry.text.now }
    {
        let start = rows::wide(self.rows[rows::LEAF_ROW + rows::START]);
        Separators {
            field,
            subfield: self.text[start],
            repeater: self.text[start + 1],
            escape: self.text[start + 2],
            subsubfield: self.text[start + 3],
        }
    }
}
