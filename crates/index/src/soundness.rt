// When a lent index is sound (X1).
ghost use Rattle.std.specs.Prelude.{◌≡◌, ◌+◌, ◌-◌, ◌*◌, ◌<◌, ◌≤◌, length, get_or};
ghost use Rattle.index.specs.Index.{codes_most, place_size, roomy, sound_index};
ghost use Rattle.index.specs.inner.Rising.{is_length, follows_at, rises_from};

use crate::code::{Compared, compare, length_at};
use crate::{CODE, CODES, PLACE, wide};

// Whether what is lent is an index: long enough for 512 codes and naming no more, each code of 1 to 22 bytes and before the next in byte order.
pub fn is_sound(codes: &[u8], counts: &[u32]) -> bool
    ensures { result ≡ sound_index codes.now counts.now }
{
    if !is_roomy(codes, counts) {
        return false;
    }
    let named = wide(counts[0]);
    if named == 0 {
        return true;
    }
    if !has_code(codes, 0) {
        return false;
    }
    rises(codes, named)
}

// Whether the buffers are long enough for 512 codes, and no more are named.
pub(crate) fn is_roomy(codes: &[u8], counts: &[u32]) -> bool
    ensures { result ≡ roomy codes.now counts.now }
{
    if codes.len() < CODES * PLACE {
        return false;
    }
    if counts.len() <= CODES {
        return false;
    }
    wide(counts[0]) <= CODES
}

// Whether the length at the place that begins at `at` is a code's: 1 to 22.
fn has_code(codes: &[u8], at: usize) -> bool
    requires { at < length codes.now }
    ensures { result ≡ is_length (get_or codes.now at 0) }
{
    let n = length_at(codes, at);
    if n == 0 {
        return false;
    }
    n <= CODE
}

// Whether each of so many codes but the first has 1 to 22 bytes and stands behind the one before it. One number counts where a place begins: that
// takes fewer instructions than to count the places.
fn rises(codes: &[u8], named: usize) -> bool
    requires { (1 ≤ named) × (named ≤ codes_most) × (codes_most * place_size ≤ length codes.now) }
    ensures { result ≡ rises_from codes.now 0 (named - 1) }
{
    let last = (named - 1) * PLACE;
    let mut at = 0;
    while at < last {
        if !follows(codes, at) {
            return false;
        }
        at += PLACE;
    }
    true
}

// Whether the code at the place behind the one that begins at `at` has 1 to 22 bytes, and stands behind the code there.
fn follows(codes: &[u8], at: usize) -> bool
    requires { (at + place_size + place_size ≤ codes_most * place_size) × (codes_most * place_size ≤ length codes.now) }
    ensures { result ≡ follows_at codes.now at }
{
    let next = at + PLACE;
    if !has_code(codes, next) {
        return false;
    }
    let n = length_at(codes, next);
    match compare(codes, at, &codes[next + 1..next + 1 + n]) {
        Compared::Before => false,
        Compared::Same => false,
        Compared::After => true,
    }
}
