//! How fast a client takes its replies.
ghost use Rattle.std.specs.Prelude.{◌≡◌, ◌-◌, ◌==◌, ◌↔◌, nat_lt, if◌then◌else◌, IsFalse, None};
ghost use Rattle.tko_pace.specs.Pacing.{IsSlow, fresh_span, paced, span_delayed, taken};

/// How many bytes a client must take in each span of time while replies wait.
const LEAST: u64 = 65_536;

/// A span of time in which replies wait, in milliseconds of one clock.
#[derive(Clone, Copy, Debug)]
pub struct Span {
    began: u64,
    /// How many bytes the client must still take in it.
    missing: u64,
}

/// How fast a client takes its replies, and how fast it must.
#[derive(Clone, Copy, Debug)]
pub struct Pace {
    /// How long a span is.
    limit: u32,
    /// The span of the replies that wait. There is none where all were taken.
    span: Option<Span>,
}

impl Span {
    fn new(now: u64) -> Span
        ensures { result ≡ fresh_span now }
    {
        Span {
            began: now,
            missing: LEAST,
        }
    }
}

impl Pace {
    pub fn new(limit: u32) -> Pace
        ensures { result ≡ record { limit = limit; span = None } }
    {
        Pace { limit, span: None }
    }

    /// Whether there is a limit.
    pub fn is_limited(&self) -> bool
        ensures { result ≡ nat_lt 0 self.now.limit }
    {
        0 < self.limit
    }

    /// At this moment replies are to be written. Returns whether the client may take them: it may
    /// not where a span has passed in which it took too little.
    pub fn begin(&mut self, now: u64) -> bool
        ensures slow { IsFalse result ↔ IsSlow self.old now }
        ensures pace { self.new ≡ (if result then paced self.old now else self.old) }
    {
        match self.span {
            Some(span) if now.saturating_sub(span.began) < u64::from(self.limit) => true,
            Some(span) if 0 < span.missing => false,
            _ => {
                self.span = Some(Span::new(now));
                true
            }
        }
    }

    /// For so long the client was offered no replies, which does not count.
    pub fn delay(&mut self, time: u64)
        ensures { self.new ≡ record self.old { span = span_delayed time self.old.span } }
    {
        if let Some(span) = &mut self.span {
            span.began = span.began.saturating_add(time);
        }
    }

    /// The client took `count` bytes of the `length` that were to be written.
    pub fn take(&mut self, count: usize, length: usize)
        ensures { self.new ≡ record self.old {
          span = (if count == length then None else taken count self.old.span);
        } }
    {
        if count == length {
            self.span = None;
        } else if let Some(span) = &mut self.span {
            span.missing = span.missing.saturating_sub(count as u64);
        }
    }
}
