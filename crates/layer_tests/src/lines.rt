//! What the examples of hosts, PADs and switches have in common: their lines, and addresses.

use packet_codec::{Address, Numbering};
use packet_end::EndParams;
use packet_layer::Flow;

/// A line of four channels, on which no call stands.
pub(crate) const LINE: EndParams = EndParams {
    k: 7,
    n2: 3,
    channels: 4,
    flow: Flow {
        window: 2,
        numbering: Numbering::Modulo8,
        size: 128,
    },
    standing: false,
};

/// A line of two channels, on the first of which a call stands.
pub(crate) const STANDING: EndParams = EndParams {
    channels: 2,
    standing: true,
    ..LINE
};

/// The address of these digits.
pub(crate) fn address_of(digits: &[u8]) -> Address {
    match Address::read(digits) {
        Ok(address) => address,
        Err(_) => Address::new(&[0]),
    }
}
