// Which byte of a message's header breaks the header rule (H1, H2), and why.

// The bytes of a header, and where it has its separators.
pub const HEADER: usize = 7;

pub const FIELD: usize = 1;

const LAST: usize = 6;

// What is wrong with a byte of a header.
#[derive(Clone, Copy)]
pub enum Flaw {
    // the message ends before it
    Missing,
    // the first byte is no H
    NoH,
    Letter,
    Digit,
    Control,
    Space,
    Above,
    // it is the same as the byte at an earlier place
    Same(usize),
    // the seventh byte is not the field separator
    NoField,
}

// The place of the first byte that breaks the rule, which is the message's end where it breaks off;
// the header's length where none does.
pub fn first_flaw(message: &[u8]) -> usize {
    (0..HEADER)
        .find(|at| flaw_at(message, *at).is_some())
        .unwrap_or(HEADER)
}

// What is wrong with the byte at a place of a header, by those before it.
pub fn flaw_at(message: &[u8], at: usize) -> Option<Flaw> {
    let Some(&b) = message.get(at) else {
        return Some(Flaw::Missing);
    };
    match at {
        0 => (b != b'H').then_some(Flaw::NoH),
        LAST => (message.get(FIELD) != Some(&b)).then_some(Flaw::NoField),
        _ => separator_flaw(message, at, b),
    }
}

// Those between the H and the last are separators, from 33 to 126: first each by itself, then
// beside those before it.
fn separator_flaw(message: &[u8], at: usize, b: u8) -> Option<Flaw> {
    match b {
        0..=31 => Some(Flaw::Control),
        b' ' => Some(Flaw::Space),
        b'0'..=b'9' => Some(Flaw::Digit),
        b'A'..=b'Z' | b'a'..=b'z' => Some(Flaw::Letter),
        127..=255 => Some(Flaw::Above),
        _ => same_before(message, at, b).map(Flaw::Same),
    }
}

// The place of the first separator before a place that is the same byte.
fn same_before(message: &[u8], at: usize, b: u8) -> Option<usize> {
    (FIELD..at).find(|earlier| message.get(*earlier) == Some(&b))
}
