// One line of the survey: where it ends and how many splitting separators it has, each byte looked
// at once.
ghost use Rattle.std.specs.Prelude.{◌≡◌, ◌+◌, ◌-◌, ◌≤◌, length, take, drop};
ghost use Rattle.read.specs.inner.Scanning.{run, marks};

use table::class::index;

// The class of a byte below 32.
const CONTROL: u8 = 5;

#[derive(Clone, Copy)]
pub struct Scanned {
    pub end: usize,
    pub separators: usize,
}

// From `from` on up to the first byte below 32, which has class 5, and at most up to `stop`. Most
// bytes are text: only the others are asked what they are.
// kept (plainer): the end is told as a place in the message, which a slice of it does not know
pub(crate) fn scan(class: &[u8; 256], message: &[u8], from: usize, stop: usize) -> Scanned
    requires { (from ≤ stop) × (stop ≤ length message.now) }
    ensures { (result.end ≡ from + run class.now (take (stop - from) (drop from message.now)))
        × (result.separators ≡ marks class.now (take (stop - from) (drop from message.now))) }
{
    let mut separators = 0;
    for i in from..stop {
        let sort = class[index(message[i])];
        if sort > 0 {
            if sort == CONTROL {
                return Scanned { end: i, separators };
            }
            separators += 1;
        }
    }
    Scanned {
        end: stop,
        separators,
    }
}
