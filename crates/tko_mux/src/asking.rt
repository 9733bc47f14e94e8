//! A session that asks servers.

use tko_model::Clear;
use tko_pipe::Fate;
use tko_text::{Request, Response};

/// What came of a request.
#[derive(Debug, Drop)]
pub enum Came {
    /// The response to it. It is that of the first request that is under way to its server.
    Response(Response),
    /// No response came. The same of that.
    Fate(Fate),
    /// Memory ran out before it was sent. So it is the last request that was asked for, and those
    /// that were sent to its server before are still under way.
    Unsent,
}

/// What a session is given.
#[derive(Debug, Drop)]
pub enum Given<I> {
    /// An input.
    Input(I),
    /// What came of a request of it to this server.
    Outcome(usize, Came),
}

/// A client's session over parts of type `P`, which all sessions of a worker share. Each call
/// returns the permission to send a request, if it asks a server, and what the session did. Several
/// of its requests may be under way, also to one server: what comes from a server is of the first
/// of those that are under way to it, in the order in which they were asked for.
pub trait Asking<P> {
    ghost use Rattle.std.specs.Prelude.{◌≡◌, ◌≢◌, ◌<◌, ℕ, Bool, List, [], Option, IsSome, Some};
    ghost use Rattle.std.specs.Bool.{OnFalse, OnTrue};
    ghost use Rattle.tko_text.specs.declared.request.Request.{Request};
    ghost use Rattle.tko_mux.specs.declared.asking.Given.{Given};
    ghost use Rattle.tko_mux.specs.Awaits.{AsksWithRequest, TakesWithRequest, times_due};

    type Input: Drop;

    type Output;

    /// What a call does to the session and to the parts.
    ghost acts: { Self × P → Given Self.Input × (Option ℕ × Self.Output) → Self × P → Type 0 };

    /// It can be called with this input.
    ghost may: { Self → Self.Input → Type 0 };

    /// It can be called over these parts.
    ghost ready: { P → Self → Type 0 };

    /// What calls leave of the parts, so that all other sessions stay ready.
    ghost stays: { P → P → Type 0 };

    /// The servers that its requests are under way to, one for each request, in any order.
    ghost awaited: { Self → List ℕ };

    /// The request that its last call asked to send.
    ghost asks_for: { Self → Option Request };

    /// The first of its requests that are under way to a server, whose response comes next.
    ghost waits_for: { Self → ℕ → Option Request };

    /// Whether the first of its requests that are under way to a server may go on to another
    /// target of its route.
    ghost has_next: { Self → ℕ → Bool };

    /// Makes one call. Where it asks a server, one request more is under way.
    fn act(&mut self, parts: &mut P, input: Self::Input) -> (Option<Clear>, Self::Output)
        requires ready { ready parts.old self.old }
        requires may { may self.old input }
        ensures acts { acts (self.old, parts.old) (Given.Input input, (result.0, result.1))
            (self.new, parts.new) }
        ensures asks { AsksWithRequest result.0 (awaited self.old) (awaited self.new)
            (asks_for self.new) }
        ensures ready { ready parts.new self.new }
        ensures stays { stays parts.old parts.new };

    /// Takes what came of a request to this server, and may ask the next one.
    fn take(&mut self, parts: &mut P, server: usize, came: Came) -> (Option<Clear>, Self::Output)
        requires ready { ready parts.old self.old }
        requires awaits { 0 < times_due (awaited self.old) server }
        ensures acts { acts (self.old, parts.old) (Given.Outcome server came, (result.0, result.1))
            (self.new, parts.new) }
        ensures asks { TakesWithRequest server came result.0 (awaited self.old) (awaited self.new)
            (asks_for self.new) }
        ensures ready { ready parts.new self.new }
        ensures stays { stays parts.old parts.new };

    /// Whether a request of it is under way.
    fn is_asking(&self) -> bool
        ensures some { OnTrue result (awaited self.now ≢ []) }
        ensures none { OnFalse result (awaited self.now ≡ []) };

    /// The request that its last call asked to send.
    fn request(&self) -> &Request
        requires { IsSome (asks_for self.now) }
        ensures { asks_for self.now ≡ Some result.now };

    /// The first of its requests that are under way to this server.
    fn request_to(&self, server: usize) -> &Request
        requires { 0 < times_due (awaited self.now) server }
        ensures { waits_for self.now server ≡ Some result.now };

    /// Whether the first of its requests that are under way to this server may go on to another
    /// target of its route, so that it need not wait for this one.
    fn has_next_target(&self, server: usize) -> bool
        ensures { result ≡ has_next self.now server };

    ghost stay_ready: { (session : Self) (old new : P) → stays old new → ready old session
        → ready new session };
}
