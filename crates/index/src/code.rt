// How two codes stand in byte order.
ghost use Rattle.std.specs.Prelude.{◌≡◌, ◌+◌, ◌<◌, length, get_or, drop};
ghost use Rattle.index.specs.inner.Comparing.{compared};

// What a code is to another one.
#[derive(Clone, Copy)]
pub enum Compared {
    Before,
    Same,
    After,
}

// The length that stands at a place.
pub(crate) fn length_at(codes: &[u8], at: usize) -> usize
    requires { at < length codes.now }
    ensures { (result ≡ get_or codes.now at 0) × (result < 256) }
{
    codes[at] as usize
}

// A code of at most 22 bytes beside the one at a place that begins at `at`. The lengths are asked for last: most codes differ in their first bytes.
pub(crate) fn compare(codes: &[u8], at: usize, code: &[u8]) -> Compared
    requires { at + length code.now < length codes.now }
    ensures { result ≡ compared code.now (get_or codes.now at 0) (drop (at + 1) codes.now) }
{
    let n = length_at(codes, at);
    let mut k = 0;
    while k < code.len() {
        if k == n {
            return Compared::After;
        }
        let a = code[k];
        k += 1;
        let b = codes[at + k];
        if a != b {
            return if a < b {
                Compared::Before
            } else {
                Compared::After
            };
        }
    }
    if k == n {
        Compared::Same
    } else {
        Compared::Before
    }
}
