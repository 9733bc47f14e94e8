//! The configuration: pools of servers, a failover route over them, and the servers of a key.
//!
//! - `Config`: what a configuration's JSON text means; `ConfigFault`: why a text is none.
//! - *Address*: `<host>:<port>`, by `is_address`. *Pool*: a list of addresses under a name. *Child*
//!   of the route: the name of a pool. *Number* of a server: its place among the different
//!   addresses of the children.
//! - *Soft limit* of a pool: how many of the servers of its group may have a soft mark, where the
//!   pool says so. *Group*: the servers that have the same first child.
//! - *Target*: the server of a child that a key belongs to, by a hash of the key and either the
//!   modulus or a ring of points (`Distribution`). `PoolKey`: the keys of a pool that say which.
//! - `pools_in`, `text_of`, `child_name`: parts of the JSON, as `Config` reads them.
#![tactic(auto)]

mod address;
mod child;
mod children;
mod config;
mod distribution;
mod fault;
mod flaws;
mod groups;
mod hashing;
mod json;
mod numbering;
mod placement;
mod placement_flaws;
mod pool_key;
mod ring_servers;
mod route;
mod soft_limits;
mod targets;

pub use address::is_address;
pub use config::Config;
pub use distribution::Distribution;
pub use fault::ConfigFault;
pub use json::{child_name, pools_in, text_of};
pub use placement::{distribution_in, hash_in};
pub use pool_key::PoolKey;
pub use soft_limits::soft_limit_named;
