// Where a code stands in an index, or would stand (X4).
ghost use Rattle.std.specs.Prelude.{◌≡◌, ◌*◌, ◌≤◌, length};
ghost use Rattle.index.specs.Index.{codes_most, code_most, place_size};
ghost use Rattle.index.specs.Finding.{place_found};
ghost use Rattle.index.specs.inner.Halving.{sought_among, missing_at};

use crate::code::{Compared, compare};
use crate::soundness::is_roomy;
use crate::{CODE, PLACE, wide};

// A place, counted from 0, and whether the code is named there; where it is not, it would be put there.
#[derive(Clone, Copy)]
pub struct Found {
    pub at: usize,
    pub named: bool,
}

// The place of a code in a lent index, found by halving: at most ten codes are compared. Of an index that is sound it is the code's own place.
// What is too short for an index or names too many codes has none, nor has a code of over 22 bytes.
pub fn find(codes: &[u8], counts: &[u32], code: &[u8]) -> Found
    ensures { result ≡ place_found codes.now counts.now code.now }
{
    if !is_roomy(codes, counts) {
        return missing();
    }
    if CODE < code.len() {
        return missing();
    }
    seek(codes, wide(counts[0]), code)
}

// No place at all.
fn missing() -> Found
    ensures { result ≡ missing_at 0 }
{
    Found {
        at: 0,
        named: false,
    }
}

// Among so many named codes: the half is kept that the code stands in.
pub(crate) fn seek(codes: &[u8], named: usize, code: &[u8]) -> Found
    requires { (named ≤ codes_most) × (codes_most * place_size ≤ length codes.now) × (length code.now ≤ code_most) }
    ensures { result ≡ sought_among codes.now named code.now }
{
    let mut low = 0;
    let mut high = named;
    while low < high {
        let middle = (low + high) / 2;
        match compare(codes, middle * PLACE, code) {
            Compared::Before => {
                high = middle;
            }
            Compared::Same => {
                return Found {
                    at: middle,
                    named: true,
                };
            }
            Compared::After => {
                low = middle + 1;
            }
        }
    }
    Found {
        at: low,
        named: false,
    }
}
