//! How an end of a gateway is to be made.
ghost use Rattle.std.specs.Prelude.{◌≡◌};

use lapb::LinkParams;
use xot_gateway::XotLine;

/// How the end of a gateway is to be made.
#[derive(Clone, Copy)]
pub struct GatewayParams {
    /// How many packets the link may have unacknowledged, from 1 to 7 (X.25 2.4.8.6, parameter k).
    pub k: u8,
    /// How many polls the link sends without an answer, from 1 to 20 (X.25 2.4.8.4, parameter N2).
    pub n2: u8,
    /// What the line carries.
    pub line: XotLine,
    /// How many logical channels the line has: they are numbered from 1.
    pub channels: u8,
    /// How many connections there may be at once.
    pub connections: usize,
}

impl GatewayParams {
    ghost use Rattle.gateway_end.specs.Params.{link_params};

    /// How the link is to be made.
    pub(crate) fn link(&self) -> LinkParams
        ensures { result ≡ link_params self.now }
    {
        LinkParams {
            k: self.k,
            n2: self.n2,
            info: self.line.most_packet(),
            standing: false,
        }
    }
}
