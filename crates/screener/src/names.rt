// Names of kinds and contexts, by number (S1, C1).
use form::context::Context;
use form::kind::Kind;
use form::letters::Spelled;
use std::fmt;

// The letters of a name.
#[derive(Clone, Copy)]
pub struct Name(Spelled);

// The name of a kind; nothing where there is none, or no kind has the number.
pub fn kind_name(kind: Option<u8>) -> Name {
    Name(Kind::name(kind.unwrap_or(0) as usize))
}

// The name of a context; nothing where no context has the number.
pub fn context_name(context: u8) -> Name {
    Name(Context::name(context as usize))
}

// As many of its letters as it counts, and all of them where it counts more than it has, as no name
// of a kind or a context does.
impl fmt::Display for Name {
    fn fmt<W: fmt::Write>(&self, f: &mut fmt::Formatter<W>) -> fmt::Result {
        let Spelled(length, array) = self.0;
        let letters = array.as_slice();
        for letter in letters.iter().take(length) {
            write!(f, "{}", *letter as char)?;
        }
        Ok(())
    }
}
