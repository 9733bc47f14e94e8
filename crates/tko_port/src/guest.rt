//! A client: its port and its session, as the multiplexer calls them.
ghost use Rattle.std.specs.Prelude.{◌≡◌};
ghost use Rattle.tko_mux.specs.Awaits.{AsksWithRequest};
ghost use Rattle.tko_port.specs.Guests.{AsksIf, ServedAs, presence_of};
ghost use Rattle.tko_port.specs.Lives.{ReadyAt, ReadyBy};

use crate::{End, Port, Settled, Talking, settle};
use tko_model::Clear;
use tko_mux::{Asking, Came};
use tko_text::Request;

/// What all clients of a worker share: the parts of their sessions, and the buffer for what is
/// read.
#[derive(Drop)]
pub struct SharedParts<P> {
    pub parts: P,
    /// It is not empty.
    pub buffer: Vec<u8>,
}

/// What a client is given.
#[derive(Clone, Copy, Debug, PartialEq, Eq)]
pub enum ClientEvent {
    /// An event said that its port is readable.
    Readable,
    /// An event said that its port is writable.
    Writable,
    /// An event said that the client sends no more.
    Ended,
    /// It is to leave, and ends so.
    Leave(End),
    /// It is to be served.
    Serve,
}

/// Whether a client is still served.
#[derive(Clone, Copy, Debug, PartialEq, Eq)]
pub enum Presence {
    Here,
    /// It leaves as soon as no request of it is under way, and ends so. Nothing is read from it or
    /// written to it any more. A client whose session ended is such a one.
    Leaving(End),
}

/// What that came to.
#[derive(Clone, Copy, Debug, PartialEq, Eq)]
pub enum Turned {
    /// The event was noted.
    Noted,
    /// It took what came of a request of it.
    Took,
    /// It asks a server, and can do nothing before something comes for one of its requests.
    Asks,
    /// It asks a server, and more can be done for it.
    AsksMore,
    /// Nothing can be done for it before its next event.
    Rests,
    /// More can be done for it in the next turn.
    Spent,
    /// Its session ended.
    Ends(End),
}

/// A client: its port and its session.
#[derive(Drop)]
pub struct Guest<L, T> {
    pub port: L,
    pub talk: T,
    pub presence: Presence,
}

impl<P, L: Port, T: Talking<P>> Asking<SharedParts<P>> for Guest<L, T> {
    ghost use Rattle.tko_port.specs.Guests.{IsGuestCall};
    ghost use Rattle.tko_port.specs.Lives.{IsGuestReady};
    ghost use Rattle.tko_port.specs.Staying.{guest_stays};

    type Input = ClientEvent;

    type Output = Turned;

    ghost acts = { λ old call new. IsGuestCall T.awaited T.talk L.port old call new };

    ghost may = { λ _ _. Unit {0} };

    ghost ready = { λ shared guest. IsGuestReady T.ready L.port shared.parts guest };

    ghost stays = { λ old new. T.stays old.parts new.parts };

    ghost awaited = { λ guest. T.awaited guest.talk };

    ghost asks_for = { λ guest. T.asks_for guest.talk };

    ghost waits_for = { λ guest. T.waits_for guest.talk };

    ghost has_next = { λ guest. T.has_next guest.talk };

    ghost stay_ready = { λ guest old new stays. guest_stays T.ready guest.presence
        (L.port guest.port) guest.talk old.parts new.parts
        (λ came went. T.stay_ready guest.talk came went old.parts new.parts stays) };

    fn act(&mut self, shared: &mut SharedParts<P>, event: ClientEvent) -> (Option<Clear>, Turned) {
        match event {
            ClientEvent::Readable => {
                self.port.set_readable();
                (None, Turned::Noted)
            }
            ClientEvent::Writable => {
                self.port.set_writable();
                (None, Turned::Noted)
            }
            ClientEvent::Ended => {
                self.port.set_ended();
                (None, Turned::Noted)
            }
            ClientEvent::Leave(why) => {
                self.presence = Presence::Leaving(why);
                (None, Turned::Noted)
            }
            ClientEvent::Serve => match self.presence {
                Presence::Here => {
                    let (asked, did) = serve(&mut self.port, &mut self.talk, shared);
                    self.presence = presence_of(did);
                    (asked, did)
                }
                Presence::Leaving(why) => (None, Turned::Ends(why)),
            },
        }
    }

    fn take(
        &mut self,
        shared: &mut SharedParts<P>,
        server: usize,
        came: Came,
    ) -> (Option<Clear>, Turned) {
        (
            self.talk.take(&mut shared.parts, server, came),
            Turned::Took,
        )
    }

    fn is_asking(&self) -> bool {
        self.talk.is_asking()
    }

    fn request(&self) -> &Request {
        self.talk.request()
    }

    fn request_to(&self, server: usize) -> &Request {
        self.talk.request_to(server)
    }

    fn has_next_target(&self, server: usize) -> bool {
        self.talk.has_next_target(server)
    }
}

/// Serves a client.
fn serve<P, L: Port, T: Talking<P>>(
    port: &mut L,
    talk: &mut T,
    shared: &mut SharedParts<P>,
) -> (Option<Clear>, Turned)
    requires ready { ReadyAt T.ready shared.old.parts (L.port port.old) talk.old }
    ensures ends { ServedAs result.1 (T.awaited talk.new) (T.talk talk.new) (L.port port.new) }
    ensures asks { AsksWithRequest result.0 (T.awaited talk.old) (T.awaited talk.new)
        (T.asks_for talk.new) }
    ensures asked { AsksIf result.1 result.0 }
    ensures ready { ReadyBy T.ready (presence_of result.1) shared.new.parts (L.port port.new)
        talk.new }
    ensures stays { T.stays shared.old.parts shared.new.parts }
{
    if shared.buffer.is_empty() {
        return (None, Turned::Ends(End::Memory));
    }
    match settle(port, talk, &mut shared.parts, &mut shared.buffer) {
        Settled::Asks(clear) => (Some(clear), Turned::Asks),
        Settled::AsksMore(clear) => (Some(clear), Turned::AsksMore),
        Settled::Rests => (None, Turned::Rests),
        Settled::Spent => (None, Turned::Spent),
        Settled::Ends(why) => (None, Turned::Ends(why)),
    }
}

/// Whether a client is still served after this.
fn presence_of(did: Turned) -> Presence
    ensures { result ≡ presence_of did }
{
    match did {
        Turned::Ends(why) => Presence::Leaving(why),
        Turned::Noted
        | Turned::Took
        | Turned::Asks
        | Turned::AsksMore
        | Turned::Rests
        | Turned::Spent => Presence::Here,
    }
}
