// The order watcher (V1, V2): a value that begins with a context's number and is told kind after kind; each time the next watcher comes
// back, and whether the kind may stand there.
ghost use Rattle.std.specs.Prelude.{◌≡◌, ◌≤◌};
ghost use Rattle.order.specs.Watcher.{begun, next_kinds};
ghost use Rattle.order.specs.inner.Followers.{as_entry};
ghost use Rattle.order.specs.inner.Telling.{InTable, follows_by, allows_c, allows_next, allows, took_kind, tell_by, tell_of, has_last, kinds_told};

use crate::followers::{PER_CONTEXT, PER_KIND};
use form::context::Context;
use form::kind::Kind;

// A place for each number up to the last kind, with one for 0, which is no kind.
pub const KINDS: usize = 13;

#[derive(Clone, Copy)]
pub struct Watcher {
    // the number that it was begun with, be it a context's or not
    pub context: u8,
    // the last kind that it said yes to, C aside; 0 before there is one
    pub last: u8,
}

// The watcher after it was told a kind, and whether it said yes.
#[derive(Clone, Copy)]
pub struct Told {
    pub watcher: Watcher,
    pub yes: bool,
}

impl Watcher {
    // A watcher that was told nothing yet. Begun with a number that is no context, it never says yes (V2).
    pub fn begin(context: u8) -> Watcher
        ensures { result ≡ begun context }
    {
        Watcher { context, last: 0 }
    }

    // Yes where the kind may come next (V1); after a no the watcher is what it was (V2).
    pub fn tell(self, kind: u8) -> Told
        ensures { result ≡ tell_of self kind }
    {
        let followers = crate::followers::table();
        self.tell_by(&followers, kind)
    }

    // The same by a table that the caller binds once: who tells many kinds does not build the table for each.
    pub fn tell_by(self, followers: &[u8; 847], kind: u8) -> Told
        ensures { result ≡ tell_by (follows_by followers.now) self kind }
    {
        let context = self.context;
        let last = self.last;
        if may_come(followers, context, last, kind) {
            let watcher = self.after(kind);
            return Told { watcher, yes: true };
        }
        Told {
            watcher: self,
            yes: false,
        }
    }

    // Which kinds may come next (V3): 1 at the number of each kind that the context lets come there, C among them, and 0 at every other. After a kind
    // that the context does not have nothing comes, not even a C.
    pub fn next_kinds(self) -> [u8; KINDS]
        ensures { result ≡ next_kinds self }
    {
        if !has_last(self.context, self.last) {
            return [0; KINDS];
        }
        self.kinds_told()
    }

    // What the watcher would say to each kind, as entries of a table.
    fn kinds_told(self) -> [u8; KINDS]
        ensures { result ≡ kinds_told self }
    {
        let followers = crate::followers::table();
        let mut next = [0; KINDS];
        let mut kind = 0;
        while kind < KINDS {
            let told = self.tell_by(&followers, kind as u8);
            next[kind] = entry_of(told.yes);
            kind += 1;
        }
        next
    }

    // The watcher once it said yes to a kind: C changes nothing in it.
    fn after(self, kind: u8) -> Watcher
        ensures { result ≡ took_kind self kind }
    {
        if kind == Kind::C {
            return self;
        }
        Watcher {
            context: self.context,
            last: kind,
        }
    }
}

// Whether a context has a kind, that is a level for it; before the first kind, where the number is 0, there is none to have.
fn has_last(context: u8, last: u8) -> bool
    ensures { result ≡ has_last context last }
{
    if last == 0 {
        return true;
    }
    let levels = crate::levels::table();
    crate::levels::level_of(&levels, context, last) != 0
}

// A test as an entry of a table.
fn entry_of(yes: bool) -> u8
    ensures { result ≡ as_entry yes }
{
    if yes { 1 } else { 0 }
}

// Whether a kind may come next in a context after the last kind, C aside, or after nothing where that is 0.
fn may_come(followers: &[u8; 847], context: u8, last: u8, kind: u8) -> bool
    ensures { result ≡ allows (follows_by followers.now) context last kind }
{
    if context < 1 {
        return false;
    }
    if Context::FAC < context {
        return false;
    }
    if kind == Kind::C {
        return may_have_c(last);
    }
    may_be_next(followers, context, last, kind)
}

// The same of a kind that is no C, in a context.
fn may_be_next(followers: &[u8; 847], context: u8, last: u8, kind: u8) -> bool
    requires { (1 ≤ context) × (context ≤ 7) }
    ensures { result ≡ allows_next (follows_by followers.now) context last kind }
{
    if last == 0 {
        return kind == Kind::H;
    }
    if Kind::L < last {
        return false;
    }
    if kind < 1 {
        return false;
    }
    if Kind::L < kind {
        return false;
    }
    is_listed(followers, context, last, kind)
}

// Whether C may stand after the last kind (C3): after each of the kinds from H to ERR, the numbers 1 to 10.
fn may_have_c(last: u8) -> bool
    ensures { result ≡ allows_c last }
{
    if last < 1 {
        return false;
    }
    last < Kind::L
}

// Whether the table's entry for three numbers that are within it is 1.
fn is_listed(followers: &[u8; 847], context: u8, last: u8, kind: u8) -> bool
    requires { InTable context last kind }
    ensures { result ≡ follows_by followers.now context last kind }
{
    let entry = (context as usize - 1) * PER_CONTEXT
        + (last as usize - 1) * PER_KIND
        + (kind as usize - 1);
    followers[entry] == 1
}
