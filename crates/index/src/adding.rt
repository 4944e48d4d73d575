// Adding a code to an index (X2).
ghost use Rattle.std.specs.Prelude.{◌≡◌, ◌+◌, ◌-◌, ◌≤◌, ◌<◌, length, take, drop, get_or};
ghost use Rattle.std.proofs.lemmas.List.Edits.{sets};
ghost use Rattle.index.specs.Index.{code_most, place_size};
ghost use Rattle.index.specs.Adding.{place_of_code, AddsAs};
ghost use Rattle.index.specs.inner.Changing.{CountsOnceMore, Insertable, Inserts};

use crate::finding::seek;
use crate::refusal::Refusal;
use crate::soundness::is_roomy;
use crate::{CODE, CODES, PLACE, wide};

// What was added.
const ADDED: u8 = 0;

// The last number that a count has.
const LAST: u32 = 4294967295;

// Adds a code to a lent index: counted once more where it is named, else put at its place among the others. An empty code is none and changes
// nothing. Refused is a code of over 22 bytes (50), a new one where 512 are named (51), one that was counted as often as can be (52), and what
// is too short for an index or names too many codes (53); then nothing changes.
pub fn add(code: &[u8], codes: &mut [u8], counts: &mut [u32]) -> u8
    ensures { AddsAs code.now codes.old counts.old result codes.new counts.new }
{
    if !is_roomy(codes, counts) {
        return Refusal::NO_INDEX;
    }
    if code.len() == 0 {
        return ADDED;
    }
    if CODE < code.len() {
        return Refusal::LONG_CODE;
    }
    let named = wide(counts[0]);
    let found = seek(codes, named, code);
    if found.named {
        return count_once_more(counts, found.at + 1);
    }
    if named == CODES {
        return Refusal::FULL_INDEX;
    }
    insert(code, found.at, named, codes, counts);
    ADDED
}

// The count at an entry, once more.
fn count_once_more(counts: &mut [u32], at: usize) -> u8
    requires { at < length counts.old }
    ensures { CountsOnceMore counts.old at result counts.new }
{
    if counts[at] == LAST {
        return Refusal::FULL_COUNT;
    }
    counts[at] += 1;
    ADDED
}

// A new code at a place, counted once, those from there on one place further.
fn insert(code: &[u8], place: usize, named: usize, codes: &mut [u8], counts: &mut [u32])
    requires { Insertable code.now place named codes.old counts.old }
    ensures { Inserts code.now place codes.old counts.old codes.new counts.new }
{
    let at = place * PLACE;
    move_codes(codes, at, named * PLACE);
    put_code(code, codes, at);
    move_counts(counts, place + 1, named + 1);
    counts[place + 1] = 1;
    counts[0] = (named + 1) as u32;
}

// The bytes from one place up to the end, one place further: the last goes first.
fn move_codes(codes: &mut [u8], from: usize, end: usize)
    requires { (from ≤ end) × (end + place_size ≤ length codes.old) }
    ensures { codes.new ≡ sets codes.old (from + place_size) (take (end - from) (drop from codes.old)) }
{
    let mut i = end;
    while from < i {
        i -= 1;
        codes[i + PLACE] = codes[i];
    }
}

// The counts likewise.
fn move_counts(counts: &mut [u32], from: usize, end: usize)
    requires { (from ≤ end) × (end < length counts.old) }
    ensures { counts.new ≡ sets counts.old (from + 1) (take (end - from) (drop from counts.old)) }
{
    let mut i = end;
    while from < i {
        i -= 1;
        counts[i + 1] = counts[i];
    }
}

// A code at a place: its length, its bytes, and zeros behind them.
fn put_code(code: &[u8], codes: &mut [u8], at: usize)
    requires { (length code.now ≤ code_most) × (at + place_size ≤ length codes.old) }
    ensures { codes.new ≡ sets codes.old at (place_of_code code.now) }
{
    codes[at] = code.len() as u8;
    let mut k = 0;
    while k < CODE {
        let b = byte_or_zero(code, k);
        k += 1;
        codes[at + k] = b;
    }
}

// The byte of a code at a place, and 0 behind its end.
fn byte_or_zero(code: &[u8], k: usize) -> u8
    ensures { result ≡ get_or code.now k 0 }
{
    if k < code.len() {
        return code[k];
    }
    0
}
