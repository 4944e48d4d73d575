// The order watcher (V1 to V3), kept by the caller as two bytes.
ghost use Rattle.abi.specs.Watching.{Watched, ToldNext};

use crate::answer;
use order::watcher::{KINDS, Watcher};

// How many bytes a watcher has: its context, and the last kind that it said yes to, C aside.
const BYTES: usize = 2;

// Tells a watcher a kind and brings it up to date. One of under two bytes is no watcher and says no.
#[unsafe(no_mangle)]
pub extern "C" fn sargaceu_watch(watcher: &mut [u8], kind: u8) -> bool
    ensures { Watched watcher.old kind result watcher.new }
{
    if watcher.len() < BYTES {
        return false;
    }
    let before = Watcher {
        context: watcher[0],
        last: watcher[1],
    };
    let told = before.tell(kind);
    let after = told.watcher;
    watcher[0] = after.context;
    watcher[1] = after.last;
    told.yes
}

// Which kinds may come next in a context after a kind, C aside, or at the beginning where the kind is 0: a byte for each number from 0 to 12, which
// is 1 where the kind may come. No where the lent bytes are too few for that; they stay as they were.
#[unsafe(no_mangle)]
pub extern "C" fn sargaceu_next_kinds(context: u8, kind: u8, kinds: &mut [u8]) -> bool
    ensures { ToldNext context kind kinds.old result kinds.new }
{
    let watcher = Watcher {
        context,
        last: kind,
    };
    let next = watcher.next_kinds();
    answer::put_bytes(kinds, &next);
    KINDS <= kinds.len()
}
