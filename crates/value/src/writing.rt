// Writing a value as its shortest text (D4, D5).
ghost use Rattle.std.specs.Prelude.{◌≡◌, ◌+◌, ◌≤◌, ◌<◌, ◌^◌, length};
ghost use Rattle.std.proofs.lemmas.List.Edits.{sets};
ghost use Rattle.value.specs.Numerals.{most_digits};
ghost use Rattle.value.specs.Writing.{WroteValue, refuses_value, spelling_told};
ghost use Rattle.value.specs.inner.Digits.{last_digits, tenths, digit_count};
ghost use Rattle.value.specs.inner.Shortening.{Spellable, PutText, digits_for, sign_text, pointed, text_for};

use crate::digits::{DIGITS, ROOM, TOO_LARGE};
use crate::refusal::Refusal;
use crate::sign::without_sign;
use form::number::Number;

// What comes back (D5): 0, 22 or 23, and how many bytes were written, 0 on a refusal.
// kept (C): sargaceu_write_value answers these numbers
#[derive(Clone, Copy)]
pub struct ValueWritten {
    pub number: u8,
    pub bytes: usize,
}

// Writes the shortest text that reads to a whole number and a count of decimals at the front of the output (D4): any number, the least of
// all too, and any count. A number that no text says is refused with 22, an output under 17 bytes with 23; output bytes past the text stay.
pub fn write_value(whole: i64, decimals: usize, output: &mut [u8]) -> ValueWritten
    ensures { WroteValue most_digits whole decimals output.old result output.new }
{
    let (negative, magnitude) = without_sign(whole);
    if TOO_LARGE <= magnitude || DIGITS < decimals {
        refusal(Refusal::OUT_OF_RANGE)
    } else if output.len() < ROOM {
        refusal(Refusal::NARROW_OUTPUT)
    } else {
        ValueWritten {
            number: Number::ACCEPTED,
            bytes: put_value(negative, magnitude, decimals, output),
        }
    }
}

// A refusal, with no byte written.
#[tactic(auto, unfolding(crate::specs::Writing::spelling_told))]
fn refusal(number: u8) -> ValueWritten
    ensures { result ≡ spelling_told (refuses_value number) }
{
    ValueWritten { number, bytes: 0 }
}

// The text of a number at the front of the output: its sign, and then its digits. How many bytes that is.
fn put_value(negative: bool, magnitude: u64, decimals: usize, output: &mut [u8]) -> usize
    requires { Spellable most_digits magnitude decimals output.old }
    ensures { PutText (text_for most_digits negative magnitude decimals) output.old result output.new }
{
    let digits = digits_for(magnitude, decimals);
    let start = put_sign(negative, output);
    if decimals == 0 {
        put_digits(magnitude, digits, output, start);
        start + digits
    } else {
        put_pointed(magnitude, digits, decimals, output, start);
        start + digits + 1
    }
}

// So many digits of a number from a place of the output on, with a point before the decimals: these first, then the point, then what is left
// of the number in front of it.
fn put_pointed(magnitude: u64, digits: usize, decimals: usize, output: &mut [u8], at: usize)
    requires { (decimals ≤ digits) × (at + digits + 1 ≤ length output.old) }
    ensures { output.new ≡ sets output.old at (pointed digits decimals magnitude) }
{
    let whole = digits - decimals;
    let point = at + whole;
    let rest = put_digits(magnitude, decimals, output, point + 1);
    output[point] = b'.';
    put_digits(rest, whole, output, at);
}

// A minus at the front of the output, or nothing: how many bytes that is.
#[tactic(auto, unfolding(crate::specs::inner::Shortening::sign_text))]
fn put_sign(negative: bool, output: &mut [u8]) -> usize
    requires { 1 ≤ length output.old }
    ensures { PutText (sign_text negative) output.old result output.new }
{
    if negative {
        output[0] = b'-';
        1
    } else {
        0
    }
}

// The last digits of a number, so many of them, zeros in front where it has fewer, from a place of the output on. What comes back is the
// number without them.
fn put_digits(magnitude: u64, count: usize, output: &mut [u8], at: usize) -> u64
    requires { at + count ≤ length output.old }
    ensures { (result ≡ tenths count magnitude) × (output.new ≡ sets output.old at (last_digits count magnitude)) }
{
    let mut left = magnitude;
    for place in (at..at + count).rev() {
        output[place] = b'0' + (left % 10) as u8;
        left /= 10;
    }
    left
}

// How many digits are written: as many as the number has, as many as there are decimals, and one at least.
#[tactic(auto, unfolding(crate::specs::inner::Shortening::digits_for))]
fn digits_for(magnitude: u64, decimals: usize) -> usize
    requires { magnitude < 10 ^ most_digits }
    ensures { result ≡ digits_for most_digits magnitude decimals }
{
    digit_count(magnitude).max(decimals).max(1)
}

// How many digits a number has; 0 has none.
#[tactic(auto, using(crate::proofs::DigitStores::count_none, crate::proofs::DigitStores::count_last))]
fn digit_count(magnitude: u64) -> usize
    requires { magnitude < 10 ^ most_digits }
    ensures { result ≡ digit_count most_digits magnitude }
{
    match magnitude.checked_ilog10() {
        None => 0,
        Some(last) => last as usize + 1,
    }
}
