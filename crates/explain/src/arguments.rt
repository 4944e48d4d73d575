// What the program is told when it is started: the form to judge by, and how wide its lines may be.
use form::forms::Form;
use std::env::Env;
use std::str;

// The arguments' places. The program's own name is at 0.
const FORM: usize = 1;

const WIDTH: usize = 2;

// No argument that has a meaning is longer.
const LONGEST: usize = 8;

// The columns of a line where none are asked for, and the least and the most that can be.
const USUAL: usize = 80;

const NARROWEST: usize = 40;

const WIDEST: usize = 1000;

// The form that a message is judged by: the small one where the first argument is `small`, and else
// the large one.
pub fn form_asked(rt: &impl Env) -> Form {
    let mut room = [0; LONGEST];
    match argument(rt, FORM, &mut room) {
        Some(word) if word == b"small".as_slice() => Form::Small,
        _ => Form::Large,
    }
}

// The columns that a line may have: the second argument where it is a number that makes sense, and
// else 80.
pub fn width_asked(rt: &impl Env) -> usize {
    let mut room = [0; LONGEST];
    let width = argument(rt, WIDTH, &mut room).and_then(number_of);
    width
        .filter(|width| (NARROWEST..=WIDEST).contains(width))
        .unwrap_or(USUAL)
}

// An argument; none where there is none, or it is longer than its room.
fn argument<'a>(rt: &impl Env, place: usize, room: &'a mut [u8; LONGEST]) -> Option<&'a [u8]> {
    let length = rt.arg(place, room).ok()?;
    room.get(..length)
}

// The number that decimal digits say; none where there are none, or something else stands among
// them, also a sign.
fn number_of(digits: &[u8]) -> Option<usize> {
    if !digits.iter().all(|b| b.is_ascii_digit()) {
        return None;
    }
    str::from_utf8(digits).ok()?.parse().ok()
}
