// What people look for in a row, by its kind.
use crate::lookup::TableRow;
use crate::output::Line;
use form::kind::Kind;
use table::rows::Entry;

// The fields that are shown: of H (7.5, 7.10), P (8.6), OBR (9.3, 9.4), OBX (10.4, 10.6, 10.7) and
// C (12.4),
const SENDER: Entry = 5;

const RECEIVER: Entry = 10;

const PATIENT: Entry = 6;

const ORDERED: Entry = 3;

const PERFORMED: Entry = 4;

const CODE: Entry = 4;

const VALUE: Entry = 6;

const UNIT: Entry = 7;

const COMMENT: Entry = 4;

// of FAC (20.4), ACT (21.3, 21.4, 21.6), REG (22.4), AP (23.14), AC (24.9) and ERR (25.8, 25.11).
const INVOICED: Entry = 4;

const LETTER: Entry = 3;

const COEFFICIENT: Entry = 4;

const QUANTITY: Entry = 6;

const PAID: Entry = 4;

const INSURED: Entry = 14;

const INSURER: Entry = 9;

const WRONG_FIELD: Entry = 8;

const WRONG_IN_WORDS: Entry = 11;

// The leaves that are shown of a row; nothing of an L.
pub fn put_fields(line: &mut Line, row: TableRow<'_>) {
    match row.kind() {
        // the sender and the receiver, by name or else by code
        Kind::H => {
            put_behind(line, " from", row.name(SENDER));
            put_behind(line, " to", row.name(RECEIVER));
        }
        Kind::P => put_both(line, row, PATIENT),
        // the laboratory's number (9.4.2, or 9.4.1), and else that of whoever ordered (9.3)
        Kind::OBR => put_leaf(line, row.name(PERFORMED).or(row.name(ORDERED))),
        Kind::OBX => put_result(line, row),
        Kind::C => {
            put_leaf(line, row.text(COMMENT, 1));
            put_more(line, row, COMMENT);
        }
        Kind::AP => put_both(line, row, INSURED),
        Kind::AC => put_leaf(line, row.text(INSURER, 1)),
        Kind::FAC => put_leaf(line, row.text(INVOICED, 1)),
        Kind::REG => put_both(line, row, PAID),
        Kind::ACT => put_act(line, row),
        // its words, or else the field that it is about
        Kind::ERR => put_leaf(
            line,
            row.text(WRONG_IN_WORDS, 1).or(row.text(WRONG_FIELD, 1)),
        ),
        _ => {}
    }
}

// A text behind a space; nothing where there is none.
fn put_leaf(line: &mut Line, text: Option<&[u8]>) {
    put_behind(line, "", text);
}

// Words, and a text behind them and a space; nothing where there is none.
fn put_behind(line: &mut Line, words: &str, text: Option<&[u8]>) {
    if let Some(text) = text {
        line.put(words);
        line.put(" ");
        line.put_text(text);
    }
}

// Both subfields of a field: a name (8.6, 23.14), or an amount and its unit (22.4).
fn put_both(line: &mut Line, row: TableRow<'_>, field: Entry) {
    put_leaf(line, row.text(field, 1));
    put_leaf(line, row.text(field, 2));
}

// Of a result its code (10.4.1), its value (10.6.1), whether there is more of it, and the unit
// (10.7).
fn put_result(line: &mut Line, row: TableRow<'_>) {
    put_leaf(line, row.text(CODE, 1));
    put_behind(line, " =", row.text(VALUE, 1));
    put_more(line, row, VALUE);
    put_leaf(line, row.text(UNIT, 1));
}

// A hint that a value or a comment has further parts.
fn put_more(line: &mut Line, row: TableRow<'_>, field: Entry) {
    if row.has_more(field) {
        line.put(" (and more)");
    }
}

// Of a line of an invoice its letter (21.3), coefficient (21.4) and quantity (21.6).
fn put_act(line: &mut Line, row: TableRow<'_>) {
    put_leaf(line, row.text(LETTER, 1));
    put_leaf(line, row.text(COEFFICIENT, 1));
    put_behind(line, " x", row.text(QUANTITY, 1));
}
