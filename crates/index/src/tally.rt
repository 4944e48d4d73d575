// The tally of what was counted (X5): messages, segments, and results that have a code.
ghost use Rattle.std.specs.Prelude.{◌≡◌};
ghost use Rattle.index.specs.Tallying.{tallied};

use crate::wide;

// The last number that a count has.
const LAST: usize = 4294967295;

#[derive(Clone, Copy)]
pub struct Tally {
    pub messages: u32,
    pub segments: u32,
    pub results: u32,
}

// A tally brought up to date; or as it was, where a number would pass the last one.
#[derive(Clone, Copy)]
pub struct Tallied {
    pub fits: bool,
    pub tally: Tally,
}

impl Tally {
    // One message more, of so many segments and results.
    pub fn with_message(self, segments: usize, results: usize) -> Tallied
        ensures { result ≡ tallied self segments results }
    {
        if wide(self.messages) == LAST {
            return Tallied {
                fits: false,
                tally: self,
            };
        }
        if LAST - wide(self.segments) < segments {
            return Tallied {
                fits: false,
                tally: self,
            };
        }
        if LAST - wide(self.results) < results {
            return Tallied {
                fits: false,
                tally: self,
            };
        }
        Tallied {
            fits: true,
            tally: Tally {
                messages: self.messages + 1,
                segments: (wide(self.segments) + segments) as u32,
                results: (wide(self.results) + results) as u32,
            },
        }
    }
}
