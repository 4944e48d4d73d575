// What is said of a patient that has not exactly one result with a code (R2).
use crate::lent::Lent;
use screen::refusal::Refusal;

// How many results with the code of a rule a patient has, by the patient's row.
pub fn put_miscounted(rt: &impl Print, table: &Lent, patient: usize, rule: u8) {
    let code = code_of(rule);
    let _ = match table.count_coded(patient, code.as_bytes()) {
        0 => print!(rt; "the patient has no result {code} (10.4.1) and must have exactly one"),
        count => print!(rt;
            "the patient has {count} results {code} (10.4.1) and must have exactly one"
        ),
    };
}

// The code of a rule.
fn code_of(rule: u8) -> &'static str {
    match rule {
        Refusal::NOT_ONE_PAYS => "PAYS",
        Refusal::NOT_ONE_TYPOR => "TYPOR",
        Refusal::NOT_ONE_PROSS => "PROSS",
        _ => "FINGE",
    }
}
