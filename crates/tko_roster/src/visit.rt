//! What is done with the parts that sessions share, between two calls of sessions.

/// Something that is done once with the shared parts, while no session is called.
pub trait PartsVisit<P> {
    type Output;

    /// What this visit does to the parts, and what it returns.
    ghost does: { Self → P → Self.Output → P → Type 0 };

    /// What it leaves of the parts.
    ghost stays: { P → P → Type 0 };

    fn visit(self, parts: &mut P) -> Self::Output
        ensures does { does self parts.old result parts.new }
        ensures stays { stays parts.old parts.new };
}
