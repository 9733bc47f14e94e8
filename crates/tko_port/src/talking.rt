//! A client's session as its port sees it.

use tko_bytes::NoMemory;
use tko_model::Clear;
use tko_mux::Came;
use tko_text::Request;

/// How far a session is.
#[derive(Clone, Copy, Debug, PartialEq, Eq)]
pub enum SessionStage {
    /// It can go on, also while requests of it are under way.
    Going,
    /// Requests of it are under way, and it can do nothing before something comes for one of them.
    Waits,
    /// Its replies are to be written before it goes on.
    Full,
    /// It needs more input.
    NeedsInput,
    /// It takes no more input.
    Over,
    /// It takes no more input, since its last line was too long.
    TooLong,
}

/// What was done with a session, and what is left of it.
#[derive(Clone, Copy, Debug, PartialEq, Eq)]
pub struct Tally {
    /// How many of its requests were answered; the greatest number means that many or more.
    pub requests: u64,
    /// How many bytes of its replies were written; the greatest number means that many or more.
    pub taken: u64,
    /// How many bytes of its replies wait to be written.
    pub waiting: usize,
    /// How many bytes of its replies are held: of those that wait, and of the one under way.
    pub held: usize,
}

/// A client's session over parts of type `P`, which all sessions of a worker share. Several of its
/// requests may be under way, also to one server: what comes from a server is of the first of those
/// that are under way to it, in the order in which they were asked for.
pub trait Talking<P> {
    ghost use Rattle.std.specs.Prelude.{◌≡◌, ◌≢◌, ◌<◌, ◌≤◌, ◌++◌, ℕ, Bool, List, [], Option, Some};
    ghost use Rattle.std.specs.Prelude.{IsSome, length, take};
    ghost use Rattle.std.specs.Bool.{OnFalse, OnTrue};
    ghost use Rattle.tko_port.specs.declared.talking.SessionStage.TheVariants.{NeedsInput};
    ghost use Rattle.tko_port.specs.Talks.{Ended, GainsAs, GoesOnWithReplies, IsCallable};
    ghost use Rattle.tko_port.specs.Talks.{IsCallableIdle, SendsBytes, SendsReplies, Sent};
    ghost use Rattle.tko_port.specs.Talks.{StaysIdle, StaysReady, TakesWhatCame, Talk, TalkItem};
    ghost use Rattle.tko_port.specs.Talks.{Took, fed_as, tally_of, went_as};
    ghost use Rattle.tko_text.specs.declared.request.Request.{Request};
    ghost use Rattle.tko_mux.specs.Awaits.{times_due};

    ghost talk: { Self → Talk };

    /// The servers that its requests are under way to, one for each request, in any order.
    ghost awaited: { Self → List ℕ };

    /// The request that its last call asked to send.
    ghost asks_for: { Self → Option Request };

    /// The first of its requests that are under way to a server, whose response comes next.
    ghost waits_for: { Self → ℕ → Option Request };

    /// Whether the first of its requests that are under way to a server may go on to another
    /// target of its route.
    ghost has_next: { Self → ℕ → Bool };

    /// What a call does to the session and to the parts.
    ghost does: { Self × P → TalkItem → Self × P → Type 0 };

    /// It can be called over these parts, once these bytes came to it and these went from it.
    ghost ready: { P → List ℕ → List ℕ → Self → Type 0 };

    /// What calls leave of the parts, so that all other sessions stay ready.
    ghost stays: { P → P → Type 0 };

    /// Goes on, for a bounded number of items, also while requests of it are under way. Returns the
    /// permission to send one more, if it asks a server. An `Err` says that its request was
    /// dropped.
    fn go_on(&mut self, parts: &mut P) -> Result<Option<Clear>, NoMemory>
        requires ready { IsCallable ready (self.old, parts.old) }
        ensures does { does (self.old, parts.old) (went_as result) (self.new, parts.new) }
        ensures goes { GoesOnWithReplies result (awaited self.old) (talk self.old) (talk self.new)
            (awaited self.new) (asks_for self.new) }
        ensures ready { StaysReady ready (self.old, parts.old) (self.new, parts.new) }
        ensures stays { stays parts.old parts.new };

    fn stage(&self) -> SessionStage
        ensures { result ≡ (talk self.now).stage };

    /// The first of the replies that wait to be written, in one piece; it is empty only if none
    /// waits.
    fn output(&self) -> &[u8]
        ensures front { (rest : List ℕ) × ((talk self.now).output ≡ result.now ++ rest) }
        ensures some { result.now ≡ [] → (talk self.now).output ≡ [] };

    /// How much was done with it, and is left of it.
    fn tally(&self) -> Tally
        ensures { result ≡ tally_of (talk self.now) };

    /// Drops the first `count` bytes of the replies, which were written.
    fn sent(&mut self, parts: &mut P, count: usize)
        requires idle { IsCallableIdle ready (self.old, parts.old) (awaited self.old) }
        requires within { count ≤ length (talk self.old).output }
        ensures does { does (self.old, parts.old) (Sent count) (self.new, parts.new) }
        ensures sends { SendsReplies count (talk self.old) (talk self.new) (awaited self.new) }
        ensures ready { SendsBytes ready (take count (talk self.old).output)
            (self.old, parts.old) (self.new, parts.new) }
        ensures stays { stays parts.old parts.new };

    /// Takes the next piece of the client's bytes.
    fn feed(&mut self, parts: &mut P, piece: &[u8]) -> Result<(), NoMemory>
        requires idle { IsCallableIdle ready (self.old, parts.old) (awaited self.old) }
        requires needs { (talk self.old).stage ≡ NeedsInput }
        ensures does { does (self.old, parts.old) (fed_as piece.now result)
            (self.new, parts.new) }
        ensures idle { StaysIdle (talk self.old) (talk self.new) (awaited self.new) }
        ensures ready { GainsAs ready piece.now result (self.old, parts.old)
            (self.new, parts.new) }
        ensures stays { stays parts.old parts.new };

    /// The client's bytes end here.
    fn end(&mut self, parts: &mut P)
        requires idle { IsCallableIdle ready (self.old, parts.old) (awaited self.old) }
        requires needs { (talk self.old).stage ≡ NeedsInput }
        ensures does { does (self.old, parts.old) Ended (self.new, parts.new) }
        ensures idle { StaysIdle (talk self.old) (talk self.new) (awaited self.new) }
        ensures ready { StaysReady ready (self.old, parts.old) (self.new, parts.new) }
        ensures stays { stays parts.old parts.new };

    /// Takes what came of a request to this server. Returns the permission to send the next one, if
    /// it asks a server.
    fn take(&mut self, parts: &mut P, server: usize, came: Came) -> Option<Clear>
        requires ready { IsCallable ready (self.old, parts.old) }
        requires awaits { 0 < times_due (awaited self.old) server }
        ensures does { does (self.old, parts.old) (Took server came result)
            (self.new, parts.new) }
        ensures takes { TakesWhatCame server came result (awaited self.old) (talk self.old)
            (talk self.new) (awaited self.new) (asks_for self.new) }
        ensures ready { StaysReady ready (self.old, parts.old) (self.new, parts.new) }
        ensures stays { stays parts.old parts.new };

    /// Whether a request of it is under way.
    fn is_asking(&self) -> bool
        ensures some { OnTrue result (awaited self.now ≢ []) }
        ensures none { OnFalse result (awaited self.now ≡ []) };

    /// The request that its last call asked to send.
    fn request(&self) -> &Request
        requires { IsSome (asks_for self.now) }
        ensures { asks_for self.now ≡ Some result.now };

    /// The first of its requests that are under way to this server.
    fn request_to(&self, server: usize) -> &Request
        requires { 0 < times_due (awaited self.now) server }
        ensures { waits_for self.now server ≡ Some result.now };

    /// Whether the first of its requests that are under way to this server may go on to another
    /// target of its route, so that it need not wait for this one.
    fn has_next_target(&self, server: usize) -> bool
        ensures { result ≡ has_next self.now server };

    ghost stay_ready: { (talking : Self) (came went : List ℕ) (old new : P) → stays old new
        → ready old came went talking → ready new came went talking };

    ghost stay: { (one two three : P) → stays one two → stays two three → stays one three };

    ghost same_stays: { (parts : P) → stays parts parts };
}
