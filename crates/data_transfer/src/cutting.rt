//! Messages in packets (X.25 4.3.4).
ghost use Rattle.std.specs.Prelude.{◌≡◌, ◌<◌};
ghost use Rattle.data_transfer.specs.Cutting.{full_packets};

/// How many packets of `size` octets, each with M = 1, go before the last packet of a message. The last one has the
/// rest, from none for an empty message to `size` octets.
pub fn full_packets(octets: &[u8], size: u16) -> usize
    requires { 0 < size }
    ensures { result ≡ full_packets size octets.now }
{
    octets.len().saturating_sub(1) / usize::from(size)
}
