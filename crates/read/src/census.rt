// Counting the codes of a message (X2): each result's code is added to a copy of the index, so that
// a refusal leaves the lent one as it was.
ghost use Rattle.std.specs.Prelude.{◌≡◌};
ghost use Rattle.index.specs.Index.{entries_in};
ghost use Rattle.read.specs.inner.Census.{carried_in, carried_by, lower_of, Countable, CensusOf, RowAhead, RowCounted};

use crate::codes::{Accepted, take_code};
use crate::refused::Refused;
use form::kind::Kind;
use index::CODE;
use index::adding::add;
use index::refusal::Refusal;

// What the rows so far come to: the lowest number of refusal that a code met with, and how many
// results were tried.
#[derive(Clone, Copy)]
pub struct Census {
    pub refused: Option<u8>,
    pub results: usize,
}

// The lowest number of refusal so far, and one more number, 0 standing for none there (X3).
fn lower(earlier: Option<u8>, number: u8) -> Option<u8>
    ensures { result ≡ lower_of earlier number }
{
    if number == 0 {
        earlier
    } else {
        Some(earlier.unwrap_or(number).min(number))
    }
}

// One row more: where it is a result that has a code, the code is added. One that is too long is
// refused at once, since no number is lower (50).
fn count_row(
    accepted: &Accepted,
    row: usize,
    census: Census,
    code: &mut [u8],
    codes: &mut [u8],
    counts: &mut [u32],
) -> Result<Census, Refused>
    requires { RowAhead accepted.now.limits accepted.now.class.now accepted.now.kinds.now accepted.now.starts.now accepted.now.decision.separators
        accepted.now.decision.context accepted.now.message.now row census code.old }
    ensures { RowCounted (carried_by accepted.now.limits accepted.now.decision.separators accepted.now.message.now row) row census codes.old counts.old
        result codes.new counts.new }
{
    if accepted.kinds[row] != Kind::OBX {
        return Ok(census);
    }
    let length = take_code(accepted, row, code);
    if length == 0 {
        return Ok(census);
    }
    if CODE < length {
        return Err(Refused {
            number: Refusal::LONG_CODE,
            place: row + 1,
        });
    }
    Ok(Census {
        refused: lower(census.refused, add(&code[..length], codes, counts)),
        results: census.results + 1,
    })
}

// All rows in their order, and how many codes were counted. A full index (51) or a full count (52)
// is refused once all are seen, since one of them may be refused with 50.
pub(crate) fn count_codes(
    accepted: &Accepted,
    codes: &mut [u8],
    counts: &mut [u32],
) -> Result<usize, Refused>
    requires { Countable accepted.now.limits accepted.now.class.now accepted.now.kinds.now accepted.now.starts.now accepted.now.decision.separators
        accepted.now.decision.context accepted.now.message.now accepted.now.decision.segments codes.old counts.old }
    ensures { CensusOf (carried_in accepted.now.limits accepted.now.decision.separators accepted.now.message.now) (entries_in codes.old counts.old)
        result codes.new counts.new }
{
    let mut code = [0u8; CODE];
    let mut census = Census {
        refused: None,
        results: 0,
    };
    for row in 0..accepted.decision.segments {
        census = count_row(accepted, row, census, &mut code, codes, counts)?;
    }
    match census.refused {
        Some(number) => Err(Refused { number, place: 0 }),
        None => Ok(census.results),
    }
}
