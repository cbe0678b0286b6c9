//! How many keys wait of each kind.
ghost use Rattle.std.specs.Prelude.{◌≡◌, ◌==◌, not, slice_index_or};
ghost use Rattle.service_ports.specs.Counting.{no_counts, one_more, one_fewer};

use crate::input::Key;

/// How many keys there are of each octet, and how many breaks.
#[derive(Drop)]
pub(crate) struct KeyCounts {
    octets: [u16; 256],
    breaks: u16,
}

impl KeyCounts {
    /// No keys.
    pub(crate) fn new() -> Self
        ensures { result ≡ no_counts }
    {
        KeyCounts {
            octets: [0; 256],
            breaks: 0,
        }
    }

    /// Counts one key more, up to 65,535 of each.
    pub(crate) fn add(&mut self, key: Key)
        ensures { self.new ≡ one_more key self.old }
    {
        match key {
            Key::Octet(octet) => {
                let place = usize::from(octet);
                self.octets[place] = self.octets[place].saturating_add(1);
            }
            Key::Break => self.breaks = self.breaks.saturating_add(1),
        }
    }

    /// Counts one key fewer.
    pub(crate) fn remove(&mut self, key: Key)
        ensures { self.new ≡ one_fewer key self.old }
    {
        match key {
            Key::Octet(octet) => {
                let place = usize::from(octet);
                self.octets[place] = self.octets[place].saturating_sub(1);
            }
            Key::Break => self.breaks = self.breaks.saturating_sub(1),
        }
    }

    /// Whether there is a key of this octet.
    pub(crate) fn has_octet(&self, octet: u8) -> bool
        ensures { result ≡ not (slice_index_or self.now.octets octet 0 == 0) }
    {
        self.octets[usize::from(octet)] != 0
    }

    /// Whether there is a break.
    pub(crate) fn has_break(&self) -> bool
        ensures { result ≡ not (self.now.breaks == 0) }
    {
        self.breaks != 0
    }
}
