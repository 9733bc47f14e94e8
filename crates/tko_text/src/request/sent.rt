//! The forms in which a request is sent to a server. None of them takes memory.
ghost use Rattle.std.specs.Prelude.{◌≡◌};
ghost use Rattle.tko_text.specs.SentRequests.{asks_no_reply, replaced_expiry, with_replaced_expiry, without_noreply};

use super::Request;

impl Request {
    /// Whether it has `noreply`.
    pub fn is_silent(&self) -> bool
        ensures { result ≡ asks_no_reply self.now }
    {
        match self {
            Request::Store { noreply, .. } => *noreply,
            Request::Cas { noreply, .. } => *noreply,
            Request::Delete { noreply, .. } => *noreply,
            Request::Incr { noreply, .. } => *noreply,
            Request::Decr { noreply, .. } => *noreply,
            Request::Touch { noreply, .. } => *noreply,
            _ => false,
        }
    }

    /// Removes `noreply`.
    pub fn drop_noreply(&mut self)
        ensures { self.new ≡ without_noreply self.old }
    {
        match self {
            Request::Store { noreply, .. } => *noreply = false,
            Request::Cas { noreply, .. } => *noreply = false,
            Request::Delete { noreply, .. } => *noreply = false,
            Request::Incr { noreply, .. } => *noreply = false,
            Request::Decr { noreply, .. } => *noreply = false,
            Request::Touch { noreply, .. } => *noreply = false,
            _ => {}
        }
    }

    /// Replaces the expiry of what it stores by this one, where it is 0 or above it. An `exptime`
    /// of 0 replaces nothing.
    pub fn replace_expiry(&mut self, exptime: u32)
        ensures { self.new ≡ with_replaced_expiry exptime self.old }
    {
        match self {
            Request::Store { entry, .. } => {
                entry.expiry = replaced_expiry(exptime, entry.expiry);
            }
            Request::Cas { entry, .. } => {
                entry.expiry = replaced_expiry(exptime, entry.expiry);
            }
            _ => {}
        }
    }
}

fn replaced_expiry(exptime: u32, expiry: i64) -> i64
    ensures { result ≡ replaced_expiry exptime expiry }
{
    let limit = i64::from(exptime);
    if limit == 0 || expiry < 0 {
        return expiry;
    }
    if expiry == 0 || expiry > limit {
        limit
    } else {
        expiry
    }
}
