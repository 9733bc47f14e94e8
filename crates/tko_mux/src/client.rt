//! A session, called by what it is given.

use crate::{Asking, Given};
use tko_model::Clear;
use tko_roster::Driven;

/// A client's session.
#[derive(Drop)]
pub struct Client<S> {
    pub session: S,
}

impl<P, S: Asking<P>> Driven<P> for Client<S> {
    ghost use Rattle.tko_mux.specs.Asks.{IsAskingCall, MayCall};

    type Input = Given<S::Input>;

    type Output = (Option<Clear>, S::Output);

    ghost acts = { λ old call new. IsAskingCall S.acts S.awaited S.asks_for old
        (call.0, (call.1.0, call.1.1)) new };

    ghost may = { λ client given. MayCall S.may S.awaited client given };

    ghost ready = { λ parts client. S.ready parts client.session };

    ghost stays = { S.stays };

    ghost awaited = { λ client. S.awaited client.session };

    ghost stay_ready = { λ client old new. S.stay_ready client.session old new };

    fn act(&mut self, parts: &mut P, given: Self::Input) -> Self::Output {
        match given {
            Given::Input(input) => self.session.act(parts, input),
            Given::Outcome(server, came) => self.session.take(parts, server, came),
        }
    }
}
