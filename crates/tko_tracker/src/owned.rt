//! The servers that a pass owns: bit `s % WORD_BITS` of word `s / WORD_BITS` is that of server `s`.
ghost use Rattle.std.specs.Prelude.{◌≡◌, ◌<◌, ℕ, false, true, if◌then◌else◌, ◌==◌, length, List};
ghost use Rattle.tko_model.specs.Limits.{max_servers};
ghost use Rattle.tko_tracker.specs.Calls.{gives, owned_left, takes};
ghost use Rattle.tko_tracker.specs.Owned.{AreBitsOf, is_set, owned_words};

use tko_model::{MAX_SERVERS, Reply};

/// Servers are below this.
pub(crate) const SERVER_END: usize = MAX_SERVERS as usize;

/// The bits of a word.
const WORD_BITS: usize = 64;

/// How many words have a bit for each server.
const WORDS: usize = 4;

/// A set of servers, with a bit for each that there may be.
#[derive(Drop)]
pub struct Owned {
    words: [u64; WORDS],
    ghost count: { length words ≡ owned_words },
}

impl Owned {
    pub(crate) fn none() -> Owned
        ensures { (server : ℕ) → is_set result.words server ≡ false }
    {
        Owned { words: [0; WORDS] }
    }

    pub(crate) fn has(&self, server: usize) -> bool
        requires { server < max_servers }
        ensures { result ≡ is_set self.now.words server }
    {
        (self.words[server / WORD_BITS] >> (server % WORD_BITS)) & 1 == 1
    }

    pub(crate) fn insert(&mut self, server: usize)
        requires { server < max_servers }
        ensures { (other : ℕ) → is_set self.new.words other
            ≡ (if other == server then true else is_set self.old.words other) }
    {
        self.words[server / WORD_BITS] |= 1 << (server % WORD_BITS);
    }

    pub(crate) fn remove(&mut self, server: usize)
        requires { server < max_servers }
        ensures { (other : ℕ) → is_set self.new.words other
            ≡ (if other == server then false else is_set self.old.words other) }
    {
        self.words[server / WORD_BITS] &= !(1 << (server % WORD_BITS));
    }

    /// The owned servers after a call on this server with this reply.
    pub(crate) fn record(&mut self, reply: Reply, server: usize)
        requires { server < max_servers }
        ensures { (owned : List ℕ) → AreBitsOf owned self.old.words →
            AreBitsOf (owned_left reply server owned) self.new.words }
    {
        if takes(reply) {
            self.insert(server);
        } else if gives(reply) {
            self.remove(server);
        }
    }
}

/// Whether a call with this reply left the thread's mark on the server.
fn takes(reply: Reply) -> bool
    ensures { result ≡ takes reply }
{
    matches!(reply, Reply::TookSoft | Reply::TookHard | Reply::Hardened)
}

/// Whether a call with this reply left the server unmarked.
fn gives(reply: Reply) -> bool
    ensures { result ≡ gives reply }
{
    matches!(
        reply,
        Reply::Counted(_) | Reply::Reset(_) | Reply::Unmarked(_) | Reply::Released(_)
    )
}
