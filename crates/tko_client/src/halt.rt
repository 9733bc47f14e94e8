//! How a client stands once a call of it came to something.
ghost use Rattle.std.specs.Prelude.{◌≡◌, ◌≢◌, None};
ghost use Rattle.tko_text.specs.Reading.{Reading};
ghost use Rattle.tko_port.specs.Talks.{HasReplies};
ghost use Rattle.tko_session.specs.Outgoing.{outgoing};
ghost use Rattle.tko_client.specs.Clients.{CourseReading, CourseStands, IsAsked, HasTakenInput};
ghost use Rattle.tko_client.specs.Clients.{phase_at, stage_of};
ghost use Rattle.tko_client.specs.Steps.{WentReading, WentStands, phase_of, server_asked_in};

use crate::ClientStanding;
use crate::answering::Answering;
use crate::calls::Went;
use crate::going::is_to_write;
use tko_model::Clear;

/// What calls of a client came to.
#[derive(Debug, Drop)]
pub(crate) struct Halt {
    /// How the client stands.
    pub course: ClientStanding,
    /// The permission to send its request once, if it asks a server.
    pub asked: Option<Clear>,
}

impl Halt {
    /// The last call came to this.
    pub(crate) fn after(it: &Answering, went: Went) -> Halt
        ensures stands { WentStands went it.now → CourseStands result.course it.now }
        ensures phase { phase_at result.course ≡ phase_of went }
        ensures asked { result.asked ≡ server_asked_in went }
        ensures short { result.course ≡ ClientStanding.Short → result.asked ≡ None }
        ensures reading { (reading : Reading) → WentReading went reading
            → CourseReading result.course reading }
        ensures replies { HasReplies (stage_of result.course) (outgoing it.now.session) }
    {
        match went {
            Went::Asks(clear) => Halt {
                course: course_asking(it),
                asked: Some(clear),
            },
            Went::On => Halt {
                course: ClientStanding::Going,
                asked: None,
            },
            Went::Waits => Halt {
                course: ClientStanding::Waits,
                asked: None,
            },
            Went::NeedsInput => Halt {
                course: course_reading(it),
                asked: None,
            },
            Went::Over => Halt {
                course: ClientStanding::Over,
                asked: None,
            },
            Went::TooLong => Halt {
                course: ClientStanding::TooLong,
                asked: None,
            },
            Went::Short => Halt {
                course: ClientStanding::Short,
                asked: None,
            },
        }
    }
}

/// How a client stands that asks a server.
fn course_asking(it: &Answering) -> ClientStanding
    ensures { IsAsked result it.now }
{
    if it.may_do_more() {
        ClientStanding::Going
    } else {
        ClientStanding::Waits
    }
}

/// How a client stands that took all of its input.
fn course_reading(it: &Answering) -> ClientStanding
    ensures { HasTakenInput result it.now }
{
    if is_to_write(it) {
        ClientStanding::Full
    } else {
        ClientStanding::NeedsInput
    }
}
