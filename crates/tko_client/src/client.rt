//! A client's session, from one event to the next.
ghost use Rattle.std.specs.Prelude.{◌≡◌, []};
ghost use Rattle.tko_session.specs.Clients.{new_client};
ghost use Rattle.tko_pools.specs.Configs.{Configuration};
ghost use Rattle.tko_port.specs.Talks.{taken_more};
ghost use Rattle.tko_client.specs.Clients.{IsReadyAfter, awaits, client_of};

use crate::Lent;
use crate::answering::Answering;
use crate::going::go_on;
use crate::taking::take;
use std::alloc::Global;
use std::net::SocketAddr;
use tko_bytes::NoMemory;
use tko_io::IoRuntime;
use tko_keys::KeyPlan;
use tko_model::Clear;
use tko_mux::Came;
use tko_port::{SessionStage, Talking, Tally};
use tko_route::Health;
use tko_session::Trails;
use tko_text::Request;

/// How a client stands.
#[derive(Clone, Copy, Debug, PartialEq, Eq)]
pub enum ClientStanding {
    /// It can go on, also while requests of it are under way.
    Going,
    /// Requests of it are under way, and it can do nothing before something comes for one of them.
    Waits,
    /// Its replies are to be written before it goes on.
    Full,
    /// It needs more input.
    NeedsInput,
    /// Its input ended, and all that came was answered.
    Ended,
    /// Its last item ended it.
    Over,
    /// Its last item ended it, a line that was too long.
    TooLong,
    /// Memory ran out for it.
    Short,
}

/// A client's session, which asks servers and does not wait for them.
#[derive(Drop)]
pub struct EventClient {
    answering: Answering,
    course: ClientStanding,
    /// How many bytes of its replies were written; the greatest number means that many or more.
    taken: u64,
}

impl EventClient {
    /// A client that has just come, of whose requests the keys are sent by this plan.
    pub fn new(alloc: Global, plan: KeyPlan) -> EventClient
        ensures client { client_of result ≡ new_client plan }
        ensures here { awaits result ≡ [] }
        ensures ready { (config : Configuration) → IsReadyAfter config [] [] result }
    {
        EventClient {
            answering: Answering::new(alloc, plan),
            course: ClientStanding::Going,
            taken: 0,
        }
    }

    /// It came from this address, for an observer.
    pub fn note_address(&mut self, client: SocketAddr)
        ensures { self.new ≡ self.old }
    {
        self.answering.session.note_client(client);
    }

    /// How it stands.
    pub fn course(&self) -> ClientStanding
        ensures { result ≡ self.now.course }
    {
        self.course
    }
}

impl<'r, R: IoRuntime, H: Health, T: Trails, C> Talking<Lent<'r, R, H, T, C>> for EventClient {
    ghost use Rattle.tko_client.specs.Answerings.{asked_by, has_next_by, waited_by};
    ghost use Rattle.tko_client.specs.Clients.{DoesAs, IsReadyAfter, awaits, client_of, talk_of};
    ghost use Rattle.tko_client.specs.Steps.{HasStayed, client_ghosts};
    ghost use Rattle.tko_client.specs.Staying.{no_change, ready_stays, stayed_on};

    ghost talk = { talk_of };

    ghost awaited = { awaits };

    ghost asks_for = { λ it. asked_by it.answering };

    ghost waits_for = { λ it. waited_by it.answering };

    ghost has_next = { λ it server. has_next_by it.answering server };

    ghost does = { λ old item new. DoesAs (client_ghosts H.Health T.Trails) item
        (client_of old.0, old.1.parts) (client_of new.0, new.1.parts) };

    ghost ready = { λ lent came went it. IsReadyAfter lent.parts.config came went it };

    ghost stays = { λ old new. HasStayed H.servers old.parts new.parts };

    ghost stay_ready = { λ it came went old new stays ready. ready_stays stays ready };

    ghost stay = { λ one two three first second. stayed_on first second };

    ghost same_stays = { λ lent. no_change };

    fn go_on(&mut self, lent: &mut Lent<'r, R, H, T, C>) -> Result<Option<Clear>, NoMemory> {
        match self.course {
            ClientStanding::Going | ClientStanding::Full | ClientStanding::NeedsInput => {}
            ClientStanding::Waits
            | ClientStanding::Ended
            | ClientStanding::Over
            | ClientStanding::TooLong => return Ok(None),
            ClientStanding::Short => return Err(NoMemory),
        }
        let halt = go_on(lent.rt, lent.alloc, &mut self.answering, &mut lent.parts);
        self.course = halt.course;
        match halt.course {
            ClientStanding::Short => Err(NoMemory),
            _ => Ok(halt.asked),
        }
    }

    fn stage(&self) -> SessionStage {
        match self.course {
            ClientStanding::Going => SessionStage::Going,
            ClientStanding::Waits => SessionStage::Waits,
            ClientStanding::Full => SessionStage::Full,
            ClientStanding::NeedsInput => SessionStage::NeedsInput,
            ClientStanding::Ended | ClientStanding::Over | ClientStanding::Short =>
                SessionStage::Over,
            ClientStanding::TooLong => SessionStage::TooLong,
        }
    }

    fn output(&self) -> &[u8] {
        self.answering.session.output()
    }

    fn tally(&self) -> Tally {
        Tally {
            requests: self.answering.session.report().requests,
            taken: self.taken,
            waiting: self.answering.session.waiting(),
            held: self.answering.held(),
        }
    }

    fn sent(&mut self, _lent: &mut Lent<'r, R, H, T, C>, count: usize) {
        self.answering.session.sent(count);
        self.taken = taken_more(self.taken, count);
    }

    fn feed(&mut self, _lent: &mut Lent<'r, R, H, T, C>, piece: &[u8]) -> Result<(), NoMemory> {
        match self.answering.session.feed(piece) {
            Ok(()) => Ok(()),
            Err(_) => Err(NoMemory),
        }
    }

    fn end(&mut self, _lent: &mut Lent<'r, R, H, T, C>) {
        self.course = ClientStanding::Ended;
    }

    fn take(
        &mut self,
        lent: &mut Lent<'r, R, H, T, C>,
        server: usize,
        came: Came,
    ) -> Option<Clear> {
        let halt = take(
            lent.rt,
            lent.alloc,
            &mut self.answering,
            &mut lent.parts,
            server,
            came,
        );
        self.course = halt.course;
        halt.asked
    }

    fn is_asking(&self) -> bool {
        self.answering.is_asking()
    }

    fn request(&self) -> &Request {
        self.answering.request()
    }

    fn request_to(&self, server: usize) -> &Request {
        self.answering.request_to(server)
    }

    fn has_next_target(&self, server: usize) -> bool {
        self.answering.has_next_to(server)
    }
}

/// How many bytes of replies were written, with so many more.
fn taken_more(taken: u64, count: usize) -> u64
    ensures { result ≡ taken_more taken count }
{
    taken.saturating_add(count as u64)
}
