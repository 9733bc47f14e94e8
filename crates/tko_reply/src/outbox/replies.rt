//! The replies as they are put into the outbox.
ghost use Rattle.std.specs.Prelude.{◌≡◌, ◌≤◌, ◌↔◌, ◌++◌, if◌then◌else◌, [], IfOk, MatchBool};
ghost use Rattle.std.specs.Prelude.{IsSome, IsTrue, OnOk, OnErr, length, map, string_bytes, take};
ghost use Rattle.std.specs.Prelude.{unwrap_or};
ghost use Rattle.std.specs.Option.{option_copied};
ghost use Rattle.tko_reply.specs.Answering.{Extends};
ghost use Rattle.tko_reply.specs.Cuts.{LooksSome};
ghost use Rattle.tko_reply.specs.Replies.{end_line, text_of_answer, values_text_in};
ghost use Rattle.tko_reply.specs.Status.{IsStatusAfter};

use super::Outbox;
use crate::status_text::append_status;
use std::sync::Wait;
use tko_bytes::NoMemory;
use tko_route::Health;
use tko_text::Response;

/// The reply to a request that got no response.
const NO_SERVER: &[u8] = b"SERVER_ERROR no server\r\n";

/// The line that ends a list of values.
const END: &[u8] = b"END\r\n";

impl Outbox {
    /// Appends the response, or that there is none.
    pub(crate) fn append_reply(&mut self, response: Option<&Response>) -> Result<(), NoMemory>
        ensures ok { OnOk result
            (self.new ≡ self.old ++ text_of_answer (option_copied response.entry)) }
        ensures err { OnErr result (self.new ≡ self.old) }
    {
        match response {
            Some(response) => self.append_response(response),
            None => self.append(NO_SERVER),
        }
    }

    /// Appends the response, or that there is none, to a request that is not silent.
    pub(crate) fn append_unless(
        &mut self,
        silent: bool,
        response: Option<&Response>,
    ) -> Result<(), NoMemory>
        ensures ok { OnOk result (self.new
            ≡ self.old ++ (if silent then [] else text_of_answer (option_copied response.entry))) }
        ensures err { OnErr result (self.new ≡ self.old) }
    {
        if silent {
            return Ok(());
        }
        self.append_reply(response)
    }

    /// Appends the values of a response that is a list of values, without the line `END`, and
    /// returns whether it is one.
    pub(crate) fn append_values(&mut self, response: Option<&Response>) -> Result<bool, NoMemory>
        ensures listed { IfOk result (λ listed.
            IsTrue listed ↔ IsSome (values_text_in (option_copied response.entry))) }
        ensures ok { OnOk result
            (self.new ≡ self.old ++ unwrap_or (values_text_in (option_copied response.entry)) []) }
        ensures err { OnErr result (self.new ≡ self.old) }
    {
        let Some(response) = response else {
            return Ok(false);
        };
        match response {
            Response::Values(None) => Ok(true),
            Response::Values(Some(value)) => {
                self.append_value(value)?;
                Ok(true)
            }
            _ => Ok(false),
        }
    }

    /// Appends the values of a response that is a list of values, and returns whether it is one. If
    /// it is none, it takes the place of all but the first `waiting` bytes.
    pub(crate) fn append_next(
        &mut self,
        waiting: usize,
        response: Option<&Response>,
    ) -> Result<bool, NoMemory>
        requires { waiting ≤ length self.old }
        ensures listed { IfOk result (λ listed.
            IsTrue listed ↔ IsSome (values_text_in (option_copied response.entry))) }
        ensures ok { IfOk result (λ listed. MatchBool listed
            (self.new ≡ self.old ++ unwrap_or (values_text_in (option_copied response.entry)) [])
            (self.new ≡ take waiting self.old ++ text_of_answer (option_copied response.entry))) }
        ensures err { OnErr result (Extends (take waiting self.old) self.new) }
    {
        if self.append_values(response)? {
            return Ok(true);
        }
        self.truncate(waiting);
        self.append_reply(response)?;
        Ok(false)
    }

    /// Appends the line that ends a list of values.
    pub fn append_end(&mut self) -> Result<(), NoMemory>
        ensures ok { OnOk result (self.new ≡ self.old ++ end_line) }
        ensures err { OnErr result (self.new ≡ self.old) }
    {
        self.append(END)
    }

    /// Appends the status of the servers.
    pub(crate) fn append_status<R: Wait, H: Health>(
        &mut self,
        rt: &R,
        health: &mut H,
        addresses: &[String],
    ) -> Result<(), NoMemory>
        requires { H.servers health.old ≡ length addresses.now }
        ensures ok { OnOk result (IsStatusAfter H.steps (map string_bytes addresses.now)
            (health.old, self.old) (health.new, self.new)) }
        ensures err { OnErr result (Extends self.old self.new) }
        ensures cut { OnErr result (LooksSome H.steps (map string_bytes addresses.now)
            health.old health.new) }
        ensures servers { H.servers health.new ≡ H.servers health.old }
    {
        append_status(rt, health, addresses, &mut self.bytes)
    }
}
