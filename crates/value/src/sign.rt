// Whole numbers with a sign, as a caller gives and gets them, and without: everything else in this
// crate carries sign and magnitude apart.
ghost use Rattle.std.specs.Prelude.{◌≡◌, ◌<◌};
ghost use Rattle.value.specs.Values.{signed_of};
ghost use Rattle.value.specs.inner.Signs.{half_range, apart};

// The whole number of a sign and a magnitude; a minus before 0 gives 0 (D2).
pub(crate) fn signed(negative: bool, magnitude: u64) -> i64
    requires { magnitude < half_range }
    ensures { result ≡ signed_of negative magnitude }
{
    let whole = magnitude as i64;
    if negative { -whole } else { whole }
}

// The sign and the magnitude of any whole number; the least of all has a magnitude, too.
pub(crate) fn without_sign(whole: i64) -> (bool, u64)
    ensures { result ≡ apart whole }
{
    (whole < 0, whole.unsigned_abs())
}
