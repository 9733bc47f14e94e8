//! A request as it was read is taken out of its place, for a driver that asks for its keys at once.
ghost use Rattle.std.specs.Prelude.{◌≡◌};

use crate::asking::OneKey;
use tko_text::Request;

impl OneKey {
    /// The request, as it is now.
    pub fn into_request(self) -> Request
        ensures { result ≡ self.request }
    {
        self.request
    }
}
