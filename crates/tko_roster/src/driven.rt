//! A session that works on parts which others share.

/// A client's session over parts of type `P`, which all sessions of a worker share. Contracts see
/// each call of it as its input with its output.
pub trait Driven<P> {
    ghost use Rattle.std.specs.Prelude.{ℕ, List};

    type Input: Drop;

    type Output;

    /// What a call does to the session and to the parts.
    ghost acts: { Self × P → Self.Input × Self.Output → Self × P → Type 0 };

    /// It can be called with this.
    ghost may: { Self → Self.Input → Type 0 };

    /// It can be called over these parts.
    ghost ready: { P → Self → Type 0 };

    /// What calls leave of the parts, so that all other sessions stay ready.
    ghost stays: { P → P → Type 0 };

    /// The servers that its requests are under way to, one for each request, in any order.
    ghost awaited: { Self → List ℕ };

    /// Makes one call.
    fn act(&mut self, parts: &mut P, input: Self::Input) -> Self::Output
        requires ready { ready parts.old self.old }
        requires may { may self.old input }
        ensures acts { acts (self.old, parts.old) (input, result) (self.new, parts.new) }
        ensures ready { ready parts.new self.new }
        ensures stays { stays parts.old parts.new };

    ghost stay_ready: { (session : Self) (old new : P) → stays old new → ready old session
        → ready new session };
}
