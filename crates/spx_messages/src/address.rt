//! The network of an endpoint.

ghost use Rattle.std.specs.Prelude.{◌≡◌};

use crate::endpoint::Endpoint;
use ipx_wire::Network;

impl Endpoint {
    /// The network of its host.
    pub fn network(&self) -> Network
        ensures { result ≡ self.now.network }
    {
        self.network
    }
}
