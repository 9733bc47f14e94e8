//! Whether all events were noted that had come before a poll.
ghost use Rattle.std.specs.Prelude.{◌≡◌};
ghost use Rattle.tko_loop.specs.Noted.{are_all_noted, events_left};

/// How many events were noted since all were that had come before some poll. A poll gives so many
/// at most, one for a socket, those first that came first: where it gives fewer, or the polls in a
/// row that did not have given as many as there are sockets, none is left that had come before the
/// first of them.
#[derive(Clone, Copy, Debug, PartialEq, Eq)]
pub(crate) struct NotedEvents {
    count: usize,
}

impl NotedEvents {
    /// None is left.
    pub(crate) fn none() -> NotedEvents
        ensures { result ≡ record { count = 0 } }
    {
        NotedEvents { count: 0 }
    }

    /// A poll gave so many of `most` events, where there are so many sockets. Returns whether all
    /// were noted that had come before it, or before the first of those that did not give all.
    pub(crate) fn note(&mut self, count: usize, most: usize, sockets: usize) -> bool
        ensures all { result ≡ are_all_noted self.old.count count most sockets }
        ensures count { self.new.count ≡ events_left self.old.count count most sockets }
    {
        let noted = self.count.saturating_add(count);
        let is_all = count < most || sockets <= noted;
        self.count = if is_all { 0 } else { noted };
        is_all
    }
}
