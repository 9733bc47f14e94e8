//! What the metrics' own server answers.
ghost use Rattle.std.specs.Prelude.{◌≡◌, ◌++◌, ◌∷◌, [], IfOk, OnOk, map, string_bytes};
ghost use Rattle.http_server.specs.Response.{fields_of};
ghost use Rattle.tko_scrapes.specs.Answers.{allow_field, close_field, html_field, no_store_field, text_field, type_field};
ghost use Rattle.tko_scrapes.specs.Pages.{HasHealth, HasPage, HasStatus, IsStatusPage, ShowsScraped, served, wants_refresh};

use crate::answer::{Answer, is_refreshed};
use bytes::{BufMut, Bytes};
use http::{HeaderValue, Request, header};
use http_server::{Response, Service};
use std::alloc::{AllocError, Global};
use tko_bytes::NoMemory;
use tko_metrics::{Meter, Process, ShownPool};
use tko_status::{PastReading, StatusPage};

/// Answers each request, and closes its connection.
#[derive(Drop)]
pub(crate) struct Pages<'a> {
    pub(crate) alloc: Global,
    pub(crate) meter: &'a Meter,
    pub(crate) addresses: &'a [String],
    pub(crate) pools: &'a [ShownPool],
    pub(crate) process: &'a Process,
    /// What was counted until moments of the last minute.
    pub(crate) past: &'a [PastReading],
    /// For how long the server runs, in milliseconds.
    pub(crate) uptime: u64,
    /// The moment, in milliseconds since 1970.
    pub(crate) moment: u64,
}

impl Service for Pages<'_> {
    ghost use Rattle.tko_scrapes.specs.Pages.{ShowsPage, served};

    ghost answers = { λ old request response new.
        ShowsPage (served old) request response };

    fn call(
        &mut self,
        request: &Request<Bytes>,
        response: &mut Response,
    ) -> Result<(), AllocError> {
        let answer = Answer::to(request.method(), request.uri().path());
        response.status = answer.status(true);
        add_close(response)?;
        match answer {
            Answer::Status => self.fill_status(request, response),
            Answer::Page => self.fill(response),
            Answer::Health => self.fill_health(response),
            Answer::NotAllowed => add_allowed(response),
            Answer::NotFound => Ok(()),
        }
    }
}

impl Pages<'_> {
    /// Fills the response with the page for people at this moment.
    fn fill_status(
        &self,
        request: &Request<Bytes>,
        response: &mut Response,
    ) -> Result<(), AllocError>
        ensures fields { OnOk result (fields_of response.new
            ≡ fields_of response.old ++ html_field ∷ no_store_field ∷ []) }
        ensures status { response.new.status ≡ response.old.status }
        ensures body { OnOk result (HasStatus (served self.now) (wants_refresh request.now)
            response.old.body.items response.new.body.items) }
    {
        add_html_type(response)?;
        add_no_store(response)?;
        let Ok(page) = self.status_text(is_refreshed(request.uri().query())) else {
            return Err(AllocError);
        };
        response.body.put_slice(&page)
    }

    /// The text of the page for people at this moment.
    fn status_text(&self, is_refreshed: bool) -> Result<Vec<u8>, NoMemory>
        ensures { IfOk result (λ text. IsStatusPage (served self.now) is_refreshed text.items) }
    {
        self.status_page(is_refreshed)?.text(self.alloc)
    }

    /// The page for people at this moment.
    fn status_page(&self, is_refreshed: bool) -> Result<StatusPage<'_>, AllocError>
        ensures { IfOk result (ShowsScraped (served self.now) is_refreshed) }
    {
        Ok(StatusPage {
            build: self.process.build,
            uptime: self.uptime,
            moment: self.moment,
            is_refreshed,
            status: self.meter.status(self.alloc, self.addresses)?,
            pools: self.pools,
            past: self.past,
        })
    }

    /// Fills the response with the metrics at this moment.
    fn fill(&self, response: &mut Response) -> Result<(), AllocError>
        ensures fields { OnOk result (fields_of response.new
            ≡ fields_of response.old ++ type_field ∷ []) }
        ensures status { response.new.status ≡ response.old.status }
        ensures body { OnOk result (HasPage (map string_bytes self.now.addresses.now)
            self.now.process.now.build response.old.body.items response.new.body.items) }
    {
        add_type(response)?;
        let Ok(text) = self.meter.page(self.alloc, self.addresses, self.process) else {
            return Err(AllocError);
        };
        response.body.put_slice(&text)
    }

    /// Fills the response with the health of the pools at this moment.
    fn fill_health(&self, response: &mut Response) -> Result<(), AllocError>
        ensures fields { OnOk result (fields_of response.new
            ≡ fields_of response.old ++ text_field ∷ []) }
        ensures health { OnOk result (HasHealth (map string_bytes self.now.addresses.now)
            self.now.pools.now response.old.body.items response.new) }
    {
        add_text_type(response)?;
        let Ok(report) = self.meter.health(self.alloc, self.addresses, self.pools) else {
            return Err(AllocError);
        };
        response.status = Answer::Health.status(report.is_healthy);
        response.body.put_slice(&report.text)?;
        Ok(())
    }
}

/// Adds what a page of metrics is.
fn add_type(response: &mut Response) -> Result<(), AllocError>
    ensures fields { OnOk result (fields_of response.new
        ≡ fields_of response.old ++ type_field ∷ []) }
    ensures status { response.new.status ≡ response.old.status }
    ensures body { response.new.body ≡ response.old.body }
{
    let kind = HeaderValue::from_static("text/plain; version=0.0.4; charset=utf-8");
    response.add_header(header::CONTENT_TYPE, kind)
}

/// Adds what a text is.
fn add_text_type(response: &mut Response) -> Result<(), AllocError>
    ensures fields { OnOk result (fields_of response.new
        ≡ fields_of response.old ++ text_field ∷ []) }
    ensures status { response.new.status ≡ response.old.status }
    ensures body { response.new.body ≡ response.old.body }
{
    let kind = HeaderValue::from_static("text/plain; charset=utf-8");
    response.add_header(header::CONTENT_TYPE, kind)
}

/// Adds what the page for people is.
fn add_html_type(response: &mut Response) -> Result<(), AllocError>
    ensures fields { OnOk result (fields_of response.new
        ≡ fields_of response.old ++ html_field ∷ []) }
    ensures status { response.new.status ≡ response.old.status }
    ensures body { response.new.body ≡ response.old.body }
{
    let kind = HeaderValue::from_static("text/html; charset=utf-8");
    response.add_header(header::CONTENT_TYPE, kind)
}

/// Adds that nobody is to keep the answer.
fn add_no_store(response: &mut Response) -> Result<(), AllocError>
    ensures fields { OnOk result (fields_of response.new
        ≡ fields_of response.old ++ no_store_field ∷ []) }
    ensures status { response.new.status ≡ response.old.status }
    ensures body { response.new.body ≡ response.old.body }
{
    response.add_header(header::CACHE_CONTROL, HeaderValue::from_static("no-store"))
}

/// Adds which methods there are.
fn add_allowed(response: &mut Response) -> Result<(), AllocError>
    ensures fields { OnOk result (fields_of response.new
        ≡ fields_of response.old ++ allow_field ∷ []) }
    ensures status { response.new.status ≡ response.old.status }
    ensures body { response.new.body ≡ response.old.body }
{
    response.add_header(header::ALLOW, HeaderValue::from_static("GET, HEAD"))
}

/// Adds that nothing follows the answer.
fn add_close(response: &mut Response) -> Result<(), AllocError>
    ensures fields { OnOk result (fields_of response.new
        ≡ fields_of response.old ++ close_field ∷ []) }
    ensures status { response.new.status ≡ response.old.status }
    ensures body { response.new.body ≡ response.old.body }
{
    response.add_header(header::CONNECTION, HeaderValue::from_static("close"))
}
