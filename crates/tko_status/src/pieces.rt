//! The parts of the page that are always the same.
ghost use Rattle.std.specs.Prelude.{◌≡◌, ◌++◌, OnOk};
ghost use Rattle.tko_status.specs.Pieces.{piece_text};

use crate::style::STYLE;
use tko_bytes::{NoMemory, append};

const HEAD_FRONT: &str = "<!DOCTYPE html>
<html lang=\"en\">
<head>
<meta charset=\"utf-8\">
<meta name=\"viewport\" content=\"width=device-width, initial-scale=1\">
<meta name=\"color-scheme\" content=\"light dark\">
<title>tkoproxy</title>
";

const REFRESH: &str = "<meta http-equiv=\"refresh\" content=\"2\">\n";

const HEAD_END: &str = "</head>\n<body>\n<header>\n<h1>tkoproxy ";

const RUNNING: &str = "</h1>\n<p>Running for ";

const REFRESH_ON: &str = ". This page is refreshed every 2 seconds
(<a href=\"/?refresh=0\">stop</a>).
<a href=\"/metrics\">Metrics</a> <a href=\"/health\">Health</a></p>
</header>
<dl>
";

const REFRESH_OFF: &str = ". This page is not refreshed
(<a href=\"/\">refresh it every 2 seconds</a>).
<a href=\"/metrics\">Metrics</a> <a href=\"/health\">Health</a></p>
</header>
<dl>
";

const RATE_FRONT: &str = "<div><dt>Requests a second</dt><dd>";

const ITEM_END: &str = "</dd></div>\n";

const ITEMS_END: &str = "</dl>\n";

const POOL_FRONT: &str = "<table class=\"pool\">\n<caption>Pool <b>";

const CAPTION_END: &str = " servers in use</caption>
<thead><tr>
<th scope=\"col\">Server</th>
<th scope=\"col\">State</th>
<th scope=\"col\">Since</th>
<th scope=\"col\">Probed by</th>
<th scope=\"col\">In flight</th>
<th scope=\"col\">Sent</th>
<th scope=\"col\">Replies</th>
<th scope=\"col\">Timeouts</th>
<th scope=\"col\">Refused</th>
<th scope=\"col\">Broken</th>
<th scope=\"col\">Aborted</th>
<th scope=\"col\">Half took</th>
<th scope=\"col\">99&nbsp;% took</th>
</tr></thead>
<tbody>
";

const UP_ROW: &str = "<tr class=\"up\"><th scope=\"row\">";

const SOFT_ROW: &str = "<tr class=\"soft\"><th scope=\"row\">";

const HARD_ROW: &str = "<tr class=\"hard\"><th scope=\"row\">";

const UP: &str = "</th><td>in use</td><td></td><td></td>";

const SOFT: &str = "</th><td>soft mark</td><td>for ";

const HARD: &str = "</th><td>hard mark</td><td>for ";

const PROBED_BY: &str = "</td><td>worker ";

const WORKERS_FRONT: &str = "<table class=\"workers\">
<caption>Event-driven workers</caption>
<thead><tr>
<th scope=\"col\">Worker</th>
<th scope=\"col\">Clients</th>
<th scope=\"col\">Connections to servers</th>
<th scope=\"col\">Waiting bytes</th>
</tr></thead>
<tbody>
";

const WORKER_ROW: &str = "<tr><th scope=\"row\">worker ";

const TABLE_END: &str = "</tbody>\n</table>\n";

const PAGE_END: &str = "</body>\n</html>\n";

/// A part of the page that is always the same.
#[derive(Clone, Copy, Debug, PartialEq, Eq)]
pub(crate) enum Piece {
    /// What comes before the style, but for whether the page is refreshed.
    HeadFront,
    /// What lets a browser ask again after 2 seconds.
    Refresh,
    /// The style.
    Style,
    /// What comes between the style and the version.
    HeadEnd,
    /// What comes between the version and for how long the server runs.
    Running,
    /// What follows that, where the page is refreshed.
    RefreshOn,
    /// The same, where it is not.
    RefreshOff,
    /// What comes before how many requests a second there were.
    RateFront,
    /// The end of a number with what it counts.
    ItemEnd,
    /// The end of all these numbers.
    ItemsEnd,
    /// What comes before the name of a pool.
    PoolFront,
    /// What comes between how many servers a pool has and their rows.
    CaptionEnd,
    /// The beginning of the row of a server in use.
    UpRow,
    /// The same of a server with a soft mark.
    SoftRow,
    /// The same of a server with a hard mark.
    HardRow,
    /// What follows the address of a server in use.
    Up,
    /// The same of a server with a soft mark, up to for how long it is so.
    Soft,
    /// The same of a server with a hard mark.
    Hard,
    /// What comes before the number of the worker that has the mark.
    ProbedBy,
    /// The beginning of the table of the workers.
    WorkersFront,
    /// The beginning of the row of a worker.
    WorkerRow,
    /// The end of a table.
    TableEnd,
    /// The end of the page.
    PageEnd,
}

impl Piece {
    #[tactic(auto, unfolding(crate::specs::Pieces::piece_text))]
    fn text(self) -> &'static str
        ensures { result.now ≡ piece_text self }
    {
        match self {
            Piece::HeadFront => HEAD_FRONT,
            Piece::Refresh => REFRESH,
            Piece::Style => STYLE,
            Piece::HeadEnd => HEAD_END,
            Piece::Running => RUNNING,
            Piece::RefreshOn => REFRESH_ON,
            Piece::RefreshOff => REFRESH_OFF,
            Piece::RateFront => RATE_FRONT,
            Piece::ItemEnd => ITEM_END,
            Piece::ItemsEnd => ITEMS_END,
            Piece::PoolFront => POOL_FRONT,
            Piece::CaptionEnd => CAPTION_END,
            Piece::UpRow => UP_ROW,
            Piece::SoftRow => SOFT_ROW,
            Piece::HardRow => HARD_ROW,
            Piece::Up => UP,
            Piece::Soft => SOFT,
            Piece::Hard => HARD,
            Piece::ProbedBy => PROBED_BY,
            Piece::WorkersFront => WORKERS_FRONT,
            Piece::WorkerRow => WORKER_ROW,
            Piece::TableEnd => TABLE_END,
            Piece::PageEnd => PAGE_END,
        }
    }
}

/// Appends a part of the page.
pub(crate) fn add_piece(out: &mut Vec<u8>, piece: Piece) -> Result<(), NoMemory>
    ensures { OnOk result (out.new.items ≡ out.old.items ++ piece_text piece) }
{
    append(out, &[piece.text().as_bytes()])
}
