//! The metrics: their names, and what they tell.
ghost use Rattle.std.specs.Prelude.{◌≡◌};
ghost use Rattle.tko_metrics.specs.Metrics.{help_of, metric_kind, metric_kind_word, name_of};

/// What kind of number a metric is.
#[derive(Clone, Copy, Debug, PartialEq, Eq)]
pub(crate) enum MetricKind {
    Counter,
    Gauge,
    Histogram,
}

/// A metric of the page.
#[derive(Clone, Copy, Debug, PartialEq, Eq)]
pub(crate) enum Metric {
    Connected,
    Accepted,
    Dropped,
    Sessions,
    Faults,
    Requests,
    Attempts,
    Skips,
    Replies,
    NoServer,
    Refused,
    Commands,
    Hits,
    Misses,
    RequestTimes,
    Probes,
    ServerSends,
    ServerProbes,
    ServerOutcomes,
    InFlight,
    ResponseTimes,
    ServerMarked,
    MarkedSince,
    WorkerClients,
    WorkerConnections,
    WorkerWaiting,
    Build,
    Descriptors,
    DescriptorLimit,
    Memory,
}

impl MetricKind {
    pub(crate) fn word(self) -> &'static str
        ensures { result.now ≡ metric_kind_word self }
    {
        match self {
            MetricKind::Counter => "counter",
            MetricKind::Gauge => "gauge",
            MetricKind::Histogram => "histogram",
        }
    }
}

/// The help text of `Metric::Dropped`.
const DROPPED: &str =
    "Connections that were closed as they were accepted: no memory, or a socket's fault.";

/// The help text of `Metric::RequestTimes`.
const REQUEST_TIMES: &str = "How long requests took, from the moment at which each was read.";

/// The help text of `Metric::InFlight`.
const IN_FLIGHT: &str = "Requests that wait for a response of the server, or to be sent to it.";

/// The help text of `Metric::ResponseTimes`.
const RESPONSE_TIMES: &str = "How long the server took to answer, of all that it answered.";

/// The help text of `Metric::WorkerConnections`.
const CONNECTIONS: &str = "Connections of this event-driven worker to servers, made or being made.";

/// The help text of `Metric::WorkerWaiting`.
const WAITING: &str =
    "Bytes of replies that this event-driven worker holds for its clients, whole or under way.";

/// The help text of `Metric::Build`.
const BUILD: &str = "1, with the version of the program and the SHA-256 of its sources as labels.";

impl Metric {
    pub(crate) fn name(self) -> &'static str
        ensures { result.now ≡ name_of self }
    {
        match self {
            Metric::Connected => "tkoproxy_clients_connected",
            Metric::Accepted => "tkoproxy_clients_total",
            Metric::Dropped => "tkoproxy_clients_dropped_total",
            Metric::Sessions => "tkoproxy_sessions_total",
            Metric::Faults => "tkoproxy_session_faults_total",
            Metric::Requests => "tkoproxy_requests_total",
            Metric::Attempts => "tkoproxy_attempts_total",
            Metric::Skips => "tkoproxy_skips_total",
            Metric::Replies => "tkoproxy_replies_total",
            Metric::NoServer => "tkoproxy_no_server_total",
            Metric::Refused => "tkoproxy_refused_total",
            Metric::Commands => "tkoproxy_commands_total",
            Metric::Hits => "tkoproxy_get_hits_total",
            Metric::Misses => "tkoproxy_get_misses_total",
            Metric::RequestTimes => "tkoproxy_request_seconds",
            Metric::Probes => "tkoproxy_probes_total",
            Metric::ServerSends => "tkoproxy_server_sends_total",
            Metric::ServerProbes => "tkoproxy_server_probes_total",
            Metric::ServerOutcomes => "tkoproxy_server_outcomes_total",
            Metric::InFlight => "tkoproxy_server_in_flight",
            Metric::ResponseTimes => "tkoproxy_server_response_seconds",
            Metric::ServerMarked => "tkoproxy_server_marked",
            Metric::MarkedSince => "tkoproxy_server_marked_timestamp_seconds",
            Metric::WorkerClients => "tkoproxy_worker_clients",
            Metric::WorkerConnections => "tkoproxy_worker_connections",
            Metric::WorkerWaiting => "tkoproxy_worker_waiting_bytes",
            Metric::Build => "tkoproxy_build_info",
            Metric::Descriptors => "process_open_fds",
            Metric::DescriptorLimit => "process_max_fds",
            Metric::Memory => "process_resident_memory_bytes",
        }
    }

    /// What it tells.
    pub(crate) fn help(self) -> &'static str
        ensures { result.now ≡ help_of self }
    {
        match self {
            Metric::Connected => "Clients that are connected, served or waiting for a worker.",
            Metric::Accepted => "Clients that were accepted and set up.",
            Metric::Dropped => DROPPED,
            Metric::Sessions => "Sessions of clients that have ended.",
            Metric::Faults => "Sessions that ended by a fault.",
            Metric::Requests => "Requests that were read.",
            Metric::Attempts => "Requests that were sent to a server, key by key.",
            Metric::Skips => "Targets that were passed over, since they were marked.",
            Metric::Replies => "Attempts that a server answered.",
            Metric::NoServer => "Routed requests that no server answered.",
            Metric::Refused => "Lines that were refused, and clients of the binary protocol.",
            Metric::Commands => "Requests that were read, by their command.",
            Metric::Hits => "Keys of get and gets for which a server had a value.",
            Metric::Misses => "Keys of get and gets for which the server that answered had none.",
            Metric::RequestTimes => REQUEST_TIMES,
            Metric::Probes => "Probes of marked servers.",
            Metric::ServerSends => "Requests that were sent to the server.",
            Metric::ServerProbes => "Probes of the server.",
            Metric::ServerOutcomes => "What came of the requests that were sent to the server.",
            Metric::InFlight => IN_FLIGHT,
            Metric::ResponseTimes => RESPONSE_TIMES,
            Metric::ServerMarked => {
                "1 where the server has this mark, and is out of use, and else 0."
            }
            Metric::MarkedSince => "When a server that is marked was marked.",
            Metric::WorkerClients => "Clients that this event-driven worker serves.",
            Metric::WorkerConnections => CONNECTIONS,
            Metric::WorkerWaiting => WAITING,
            Metric::Build => BUILD,
            Metric::Descriptors => "Open file descriptors.",
            Metric::DescriptorLimit => {
                "How many file descriptors the process could have open at its start."
            }
            Metric::Memory => "Resident memory in bytes.",
        }
    }

    pub(crate) fn kind(self) -> MetricKind
        ensures { result ≡ metric_kind self }
    {
        match self {
            Metric::Connected
            | Metric::InFlight
            | Metric::ServerMarked
            | Metric::MarkedSince
            | Metric::WorkerClients
            | Metric::WorkerConnections
            | Metric::WorkerWaiting
            | Metric::Build
            | Metric::Descriptors
            | Metric::DescriptorLimit
            | Metric::Memory => MetricKind::Gauge,
            Metric::Accepted
            | Metric::Dropped
            | Metric::Sessions
            | Metric::Faults
            | Metric::Requests
            | Metric::Attempts
            | Metric::Skips
            | Metric::Replies
            | Metric::NoServer
            | Metric::Refused
            | Metric::Commands
            | Metric::Hits
            | Metric::Misses
            | Metric::Probes
            | Metric::ServerSends
            | Metric::ServerProbes
            | Metric::ServerOutcomes => MetricKind::Counter,
            Metric::RequestTimes | Metric::ResponseTimes => MetricKind::Histogram,
        }
    }
}
