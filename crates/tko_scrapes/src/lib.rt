//! The clients of the metrics page, of the health and of the page for people, and their HTTP.
//!
//! - `Scrapes`: answers `GET /metrics` with the page of a meter, `GET /health` with the health of
//!   the pools and `GET /` with the page for people, on one thread, several clients at once, until
//!   the meter ends.
#![tactic(auto)]

mod answer;
mod page_client;
mod page_clients;
mod pages;
mod scrapes;
mod visit;

pub use scrapes::Scrapes;
