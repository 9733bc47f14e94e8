//! The health of servers, as a router and a prober ask for it.
ghost use Rattle.std.specs.Prelude.{◌≡◌, ◌<◌, IfSome, IfNone};
ghost use Rattle.tko_model.specs.Records.{Called, NoDuty};
ghost use Rattle.tko_health.specs.Health.{NamesServer, look_item};

use std::sync::Wait;
use tko_model::{Duty, Look, Reply};

/// What is known of the servers' health, and what a router reports of them. Each call is one item
/// of a record that contracts see: the operation, the server and the reply. So is each call of
/// `duty` that denies the right; one that grants it changes nothing.
pub trait Health {
    ghost use Rattle.std.specs.Prelude.{ℕ};
    ghost use Rattle.tko_model.specs.Records.{HealthItem};
    ghost use Rattle.tko_model.specs.declared.mark.Op.TheVariants.{SoftFailure, HardFailure, Success, Release};

    /// How many servers there are.
    ghost servers: { Self → ℕ };

    /// From one state to the next, this call got this reply.
    ghost steps: { Self → HealthItem → Self → Type 0 };

    /// The caller has the right to probe this server.
    ghost grants: { Self → ℕ → Type 0 };

    /// Looks a server up. What it finds up may be sent to once.
    fn look_up<R: Wait>(&mut self, rt: &R, server: usize) -> Look
        requires { server < servers self.old }
        ensures step { steps self.old (look_item server result) self.new }
        ensures names { NamesServer server result }
        ensures servers { servers self.new ≡ servers self.old };

    /// The server failed in a way that may pass, such as a timeout.
    fn soft_failure<R: Wait>(&mut self, rt: &R, server: usize) -> Reply
        requires { server < servers self.old }
        ensures step { steps self.old (Called SoftFailure server result) self.new }
        ensures servers { servers self.new ≡ servers self.old };

    /// The server could not be reached.
    fn hard_failure<R: Wait>(&mut self, rt: &R, server: usize) -> Reply
        requires { server < servers self.old }
        ensures step { steps self.old (Called HardFailure server result) self.new }
        ensures servers { servers self.new ≡ servers self.old };

    /// The server answered.
    fn success<R: Wait>(&mut self, rt: &R, server: usize) -> Reply
        requires { server < servers self.old }
        ensures step { steps self.old (Called Success server result) self.new }
        ensures servers { servers self.new ≡ servers self.old };

    /// The caller gives up its mark of the server.
    fn release<R: Wait>(&mut self, rt: &R, server: usize) -> Reply
        requires { server < servers self.old }
        ensures step { steps self.old (Called Release server result) self.new }
        ensures servers { servers self.new ≡ servers self.old };

    /// The caller's right to probe a server, where the server's mark is its own.
    fn duty<R: Wait>(&mut self, rt: &R, server: usize) -> Option<Duty>
        requires { server < servers self.old }
        ensures some { IfSome result (λ duty. (duty ≡ server) × (self.new ≡ self.old)) }
        ensures right { IfSome result (λ duty. grants self.old server) }
        ensures none { IfNone result (steps self.old (NoDuty server) self.new) }
        ensures servers { servers self.new ≡ servers self.old };

    fn servers(&self) -> usize
        ensures { result ≡ servers self.now };
}
