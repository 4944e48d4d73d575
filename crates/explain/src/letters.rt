// Names of kinds and contexts that are nearly right.
use form::context::Context;
use form::kind::Kind;
use form::letters::Letters;

// The letters of every context's name.
const CONTEXT: usize = 3;

// Whether a text would be a kind if its letters were capitals.
pub fn is_kind_in_capitals(text: &[u8]) -> bool {
    let name = capitals(text);
    Kind::of(name.length, name.first, name.second, name.third) != 0
}

// Whether it would be a context.
pub fn is_context_in_capitals(text: &[u8]) -> bool {
    let name = capitals(text);
    Context::of(name.length, name.first, name.second, name.third) != 0
}

// Whether it begins with a context's name, and something that is no letter stands behind that.
pub fn is_context_with_more(text: &[u8]) -> bool {
    let Some((name, more)) = text.split_at_checked(CONTEXT) else {
        return false;
    };
    more.first().is_some_and(|b| !b.is_ascii_alphabetic()) && is_context_in_capitals(name)
}

// Whether it is a kind but for a space in front of it or behind it.
pub fn is_kind_with_space(text: &[u8]) -> bool {
    let name = text.strip_prefix(b" ").or_else(|| text.strip_suffix(b" "));
    name.is_some_and(is_kind_in_capitals)
}

// The letters of a text, as capitals.
fn capitals(text: &[u8]) -> Letters {
    let name = Letters::of(text);
    Letters {
        length: name.length,
        first: name.first.to_ascii_uppercase(),
        second: name.second.to_ascii_uppercase(),
        third: name.third.to_ascii_uppercase(),
    }
}
