// The levels of kinds (O1, O4).
ghost use Rattle.std.specs.Prelude.{◌≡◌};
ghost use Rattle.order.specs.inner.Levels.{level_table, former_level_table, level_in};

use crate::level_table::{FORMER_LEVELS, LEVELS, PER_CONTEXT};
use form::context::Context;
use form::kind::Kind;

// The table of the levels in force, to be bound once and lent to each `level_of`.
pub fn table() -> [u8; 84]
    ensures { result ≡ level_table }
{
    LEVELS
}

// The table of the former levels, for tables that were archived while they were in force.
pub fn former_table() -> [u8; 84]
    ensures { result ≡ former_level_table }
{
    FORMER_LEVELS
}

// The level of a kind in a context by a table of levels (O1); 0 for C, for every greater number, and where there is no such context. The
// number 0, which is no kind, has an entry in each context: in both tables it is 0.
pub fn level_of(levels: &[u8; 84], context: u8, kind: u8) -> u8
    ensures { result ≡ level_in levels.now context kind }
{
    if context < 1 {
        return 0;
    }
    if Context::FAC < context {
        return 0;
    }
    if Kind::L < kind {
        return 0;
    }
    let entry = (context as usize - 1) * PER_CONTEXT + kind as usize;
    levels[entry]
}
