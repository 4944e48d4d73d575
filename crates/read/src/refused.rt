// A message that is refused.
ghost use Rattle.std.specs.Prelude.{◌≡◌};

// The number (N1) and the place, 0 where it has none. No refusal has the number 0.
// kept (C): `Answer` has the place 0 where a refusal has none
#[derive(Clone, Copy)]
pub struct Refused {
    pub number: u8,
    pub place: usize,
}

impl Refused {
    pub(crate) fn at(number: u8, place: usize) -> Refused
        ensures { result ≡ record { number = number; place = place } }
    {
        Refused { number, place }
    }
}
