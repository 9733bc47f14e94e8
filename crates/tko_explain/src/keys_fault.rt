//! Which of two texts is no configuration.

use tko_pools::ConfigFault;

/// Why nothing is counted: one of two texts is no configuration, or memory ran out.
#[derive(Debug, Drop)]
pub enum KeysFault {
    /// The text of the configuration is none.
    Config(ConfigFault),
    /// The text of the one that it is compared with is none.
    Against(ConfigFault),
}
