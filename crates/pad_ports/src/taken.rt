//! What terminals take on their calls, and what they send there.
ghost use Rattle.std.specs.Prelude.{◌≡◌};
ghost use Rattle.pad_ports.specs.TakenView.{taken_of};

use packet_layer::{InterruptData, UserData};

/// The most octets of a Data packet on the line of a PAD (X.25 4.3.2).
pub(crate) const MOST_OCTETS: usize = 128;

/// What a terminal took on its call.
#[derive(Drop)]
pub enum PadTaken {
    Interrupt(InterruptData),
    Data(UserData<MOST_OCTETS>),
}

impl PadTaken {
    /// A copy of what was taken.
    pub(crate) fn copied(&self) -> PadTaken
        ensures { taken_of result ≡ taken_of self.now }
    {
        match self {
            PadTaken::Interrupt(data) => PadTaken::Interrupt(InterruptData::new(data.octets())),
            PadTaken::Data(data) => PadTaken::Data(UserData::new(
                data.octets(),
                data.more(),
                data.qualified(),
                data.delivery(),
            )),
        }
    }
}
