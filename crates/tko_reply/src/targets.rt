//! The targets of a key.
ghost use Rattle.std.specs.Prelude.{OnOk};
ghost use Rattle.tko_reply.specs.Asking.{GoesTo};
ghost use Rattle.tko_pools.specs.Configs.{AreServers};

use crate::requests::first_key;
use tko_bytes::NoMemory;
use tko_pools::Config;
use tko_text::Request;

/// Puts the targets of a request's first key into a list, in place of what it held.
#[inline(always)]
pub(crate) fn find_targets(
    config: &Config,
    request: &Request,
    targets: &mut Vec<usize>,
) -> Result<(), NoMemory>
    ensures ok { OnOk result (GoesTo config.now request.now targets.new.items) }
    ensures within { AreServers config.now targets.new.items }
{
    match first_key(request) {
        Some(key) => config.replace_targets(key.as_bytes(), targets),
        None => {
            targets.clear();
            Ok(())
        }
    }
}
