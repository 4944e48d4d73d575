// What the planner asks of a lent index (X4): how many codes it names, how often one was counted, and which is the k-th.
ghost use Rattle.std.specs.Prelude.{◌≡◌};
ghost use Rattle.index.specs.Finding.{codes_asked, count_asked, code_asked};

use crate::code::length_at;
use crate::finding::find;
use crate::soundness::is_roomy;
use crate::{CODE, PLACE, wide};

// How many codes are named.
#[derive(Clone, Copy)]
pub enum Codes {
    Named(usize),
    NoIndex,
}

// How often a code was counted.
#[derive(Clone, Copy)]
pub enum Count {
    Times(u32),
    NotNamed,
    NoIndex,
}

// Where among the codes' bytes a code begins, its length, and how often it was counted.
#[derive(Clone, Copy)]
pub enum Code {
    At {
        start: usize,
        length: usize,
        times: u32,
    },
    NotNamed,
    NoIndex,
}

// How many codes a lent index names.
pub fn named_codes(codes: &[u8], counts: &[u32]) -> Codes
    ensures { result ≡ codes_asked codes.now counts.now }
{
    if !is_roomy(codes, counts) {
        return Codes::NoIndex;
    }
    Codes::Named(wide(counts[0]))
}

// How often a code was counted. Of a sound index it is the code's count; of any other it is what stands where halving comes to.
pub fn count_of(codes: &[u8], counts: &[u32], code: &[u8]) -> Count
    ensures { result ≡ count_asked codes.now counts.now code.now }
{
    if !is_roomy(codes, counts) {
        return Count::NoIndex;
    }
    let found = find(codes, counts, code);
    if !found.named {
        return Count::NotNamed;
    }
    Count::Times(counts[found.at + 1])
}

// The k-th code in byte order, counted from 1.
pub fn code_numbered(codes: &[u8], counts: &[u32], k: usize) -> Code
    ensures { result ≡ code_asked codes.now counts.now k }
{
    if !is_roomy(codes, counts) {
        return Code::NoIndex;
    }
    if k == 0 {
        return Code::NotNamed;
    }
    if wide(counts[0]) < k {
        return Code::NotNamed;
    }
    let at = (k - 1) * PLACE;
    let length = length_at(codes, at);
    if length == 0 {
        return Code::NoIndex;
    }
    if CODE < length {
        return Code::NoIndex;
    }
    Code::At {
        start: at + 1,
        length,
        times: counts[k],
    }
}
