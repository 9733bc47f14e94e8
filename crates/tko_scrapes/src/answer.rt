//! Which answer a request gets.
ghost use Rattle.std.specs.Prelude.{◌≡◌, option_map};
ghost use Rattle.tko_scrapes.specs.Answers.{answer_to, if_allowed, is_refreshed, status_of};

use http::{Method, StatusCode};

/// The path of the page for people.
const STATUS_PATH: &str = "/";

/// The query of that page that is not refreshed.
const NO_REFRESH: &str = "refresh=0";

/// The path of the metrics.
const PAGE_PATH: &str = "/metrics";

/// The path of the health.
const HEALTH_PATH: &str = "/health";

/// Which answer a request gets.
#[derive(Clone, Copy, Debug, PartialEq, Eq)]
pub(crate) enum Answer {
    /// The page for people at this moment.
    Status,
    /// The metrics at this moment.
    Page,
    /// The health of the pools at this moment.
    Health,
    /// There is an answer for the path, but not to this method.
    NotAllowed,
    NotFound,
}

impl Answer {
    /// The answer to a request of this method for this path. To `HEAD` it is that to `GET`, of
    /// which http_server leaves out the body.
    pub(crate) fn to(method: &Method, path: &str) -> Answer
        ensures { result ≡ answer_to method.now path.now }
    {
        if path == STATUS_PATH {
            Answer::Status.if_allowed(method)
        } else if path == PAGE_PATH {
            Answer::Page.if_allowed(method)
        } else if path == HEALTH_PATH {
            Answer::Health.if_allowed(method)
        } else {
            Answer::NotFound
        }
    }

    /// This answer, if the method may be asked for.
    fn if_allowed(self, method: &Method) -> Answer
        ensures { result ≡ if_allowed method.now self }
    {
        if *method == Method::GET || *method == Method::HEAD {
            self
        } else {
            Answer::NotAllowed
        }
    }

    /// Its status. That of the health depends on whether the pools are healthy.
    pub(crate) fn status(self, is_healthy: bool) -> StatusCode
        ensures { result ≡ status_of self is_healthy }
    {
        match self {
            Answer::Status | Answer::Page => StatusCode::OK,
            Answer::Health if is_healthy => StatusCode::OK,
            Answer::Health => StatusCode::SERVICE_UNAVAILABLE,
            Answer::NotAllowed => StatusCode::METHOD_NOT_ALLOWED,
            Answer::NotFound => StatusCode::NOT_FOUND,
        }
    }
}

/// Whether a browser that asks with this query asks for the page for people again by itself.
pub(crate) fn is_refreshed(query: Option<&str>) -> bool
    ensures { result ≡ is_refreshed (option_map (λ text. text.now) query.entry) }
{
    match query {
        Some(query) => query != NO_REFRESH,
        None => true,
    }
}
