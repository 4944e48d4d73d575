// What is said of a result whose value is none that it may take (R3).
use crate::lent::Lent;
use look::leaf::Sought;
use screen::refusal::Refusal;
use table::rows::Entry;

// The field of a result that has its value, 10.6.
const VALUE: Entry = 6;

// The value of a row's result, whether it is there at all, and which values a rule wants.
pub fn put_misvalued(rt: &impl Print, table: &Lent, row: usize, rule: u8) {
    let found = match table.leaf_of(row, VALUE, 1) {
        Sought::At(_, _) => "",
        Sought::Empty => "empty, so ",
        Sought::NotThere => "not there, so ",
    };
    let (result, letters) = wanted_by(rule);
    let _ = print!(rt; "the value (10.6.1) of {result} is {found}none of {letters}");
}

// The result that a rule is about, and the values that it may take.
fn wanted_by(rule: u8) -> (&'static str, &'static str) {
    match rule {
        Refusal::WRONG_TYPOR => ("TYPOR", "I H E C A U"),
        Refusal::WRONG_PROSS => ("PROSS", "O N U"),
        _ => ("a result of type CE with a LOINC code (LN)", "P N I X"),
    }
}
