// The index by analysis code (X1 to X5): reading with one, and what the planner asks of it. The caller keeps the index in two buffers, and the
// tally as three numbers.
ghost use Rattle.std.specs.Prelude.{◌≡◌, ◌≤◌, length};
ghost use Rattle.index.specs.Index.{sound_index};
ghost use Rattle.abi.specs.FormNumbers.{limits_numbered};
ghost use Rattle.abi.specs.Putting.{put_all};
ghost use Rattle.abi.specs.Indexing.{tally_of, tally_numbers, ReadIndexedInto, AskedCodes, AskedCount, AskedCode};

use crate::{answer, forms};
use form::number::Number;
use index::asking::{Code, Codes, Count};
use index::refusal::Refusal;
use index::tally::Tally;
use index::wide;
use table::rows;

// How many numbers an answer has: as many as the reader's.
const ANSWER: usize = 6;

// How many numbers a tally has: messages, segments, results.
const TALLY: usize = 3;

// What the planner is told of a code that the index names, and of one that it does not.
const NAMED: u8 = 1;

const NOT_NAMED: u8 = 0;

// Reads a message of a form as the reader does, adds the codes of its results to the index and the message to the tally (X2 to X5). The number comes
// back; place and card go into the answer, those of a refusal too (N3). An answer of under six numbers and a tally of under three are refused with 1
// before anything is read, since the caller could not learn then what was read or counted.
#[unsafe(no_mangle)]
pub extern "C" fn sargaceu_read_indexed(
    form: u8,
    message: &[u8],
    text: &mut [u8],
    segments: &mut [rows::Entry],
    leaves: &mut [rows::Entry],
    codes: &mut [u8],
    counts: &mut [u32],
    tally: &mut [u32],
    answer: &mut [usize],
) -> u8
    ensures { ReadIndexedInto (limits_numbered form) message.now text.old segments.old leaves.old
        codes.old counts.old tally.old answer.old
        result text.new segments.new leaves.new
        codes.new counts.new tally.new answer.new }
{
    if answer.len() < ANSWER {
        return Number::SHORT_BUFFER;
    }
    if tally.len() < TALLY {
        return Number::SHORT_BUFFER;
    }
    let before = tally_of(tally);
    let named = forms::form_of(form);
    let indexed = read::indexed::read_indexed(
        before, named, message, text, segments, leaves, codes, counts,
    );
    let after = indexed.tally;
    let filed = indexed.answer;
    put_tally(after, tally);
    answer::put_filed(filed, answer)
}

// The tally that lent numbers are.
fn tally_of(tally: &[u32]) -> Tally
    requires { 3 ≤ length tally.now }
    ensures { result ≡ tally_of tally.now }
{
    Tally {
        messages: tally[0],
        segments: tally[1],
        results: tally[2],
    }
}

// A tally as lent numbers.
fn put_tally(after: Tally, tally: &mut [u32])
    requires { 3 ≤ length tally.old }
    ensures { tally.new ≡ put_all tally.old (tally_numbers after) }
{
    tally[0] = after.messages;
    tally[1] = after.segments;
    tally[2] = after.results;
}

// Whether what is lent is an index (X1): the 53 of reading with it is the no.
#[unsafe(no_mangle)]
pub extern "C" fn sargaceu_index_sound(codes: &[u8], counts: &[u32]) -> bool
    ensures { result ≡ sound_index codes.now counts.now }
{
    index::soundness::is_sound(codes, counts)
}

// How many codes an index names (X4): 1, and it goes into the answer; 53 where what is lent is too short for an index or names too many.
#[unsafe(no_mangle)]
pub extern "C" fn sargaceu_index_codes(codes: &[u8], counts: &[u32], answer: &mut [usize]) -> u8
    ensures { AskedCodes codes.now counts.now answer.old result answer.new }
{
    match index::asking::named_codes(codes, counts) {
        Codes::Named(named) => {
            let numbers = [named];
            answer::put_numbers(answer, &numbers);
            NAMED
        }
        Codes::NoIndex => Refusal::NO_INDEX,
    }
}

// How often a code was counted (X4): 1, and it goes into the answer; 0 where the index does not name the code; 53 as above.
#[unsafe(no_mangle)]
pub extern "C" fn sargaceu_index_count(
    codes: &[u8],
    counts: &[u32],
    code: &[u8],
    answer: &mut [usize],
) -> u8
    ensures { AskedCount codes.now counts.now code.now answer.old result answer.new }
{
    match index::asking::count_of(codes, counts, code) {
        Count::Times(times) => {
            let numbers = [wide(times)];
            answer::put_numbers(answer, &numbers);
            NAMED
        }
        Count::NotNamed => NOT_NAMED,
        Count::NoIndex => Refusal::NO_INDEX,
    }
}

// The k-th code in byte order, from 1 on (X4): 1, and where among the codes' bytes it begins, its length and its count go into the answer; 0 where
// there is no such code; 53 as above, and where the place's length is not 1 to 22.
#[unsafe(no_mangle)]
pub extern "C" fn sargaceu_index_code(
    codes: &[u8],
    counts: &[u32],
    k: usize,
    answer: &mut [usize],
) -> u8
    ensures { AskedCode codes.now counts.now k answer.old result answer.new }
{
    match index::asking::code_numbered(codes, counts, k) {
        Code::At {
            start,
            length,
            times,
        } => {
            let numbers = [start, length, wide(times)];
            answer::put_numbers(answer, &numbers);
            NAMED
        }
        Code::NotNamed => NOT_NAMED,
        Code::NoIndex => Refusal::NO_INDEX,
    }
}
