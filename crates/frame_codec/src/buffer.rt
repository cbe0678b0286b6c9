//! Room for the octets of one frame.
ghost use Rattle.std.specs.Prelude.{◌≡◌, ◌≤◌, ◌<◌, ◌+◌, List, [], ◌∷◌, ◌++◌, length, take, drop, ℕ};
ghost use Rattle.frame_codec.specs.Spelling.{most_octets};

use std::marker::Model;

/// The most octets of information that an I frame carries on any line: a packet.
pub const MAX_INFORMATION: usize = 1028;

/// The most octets of a frame: address, control and information.
pub const MAX_FRAME: usize = 1030;

/// Room for the octets of one frame.
#[derive(Drop)]
pub struct FrameBuf {
    octets: [u8; MAX_FRAME],
    len: usize,
}

impl Model for FrameBuf {
    ghost use Rattle.std.specs.Prelude.{◌≤◌, List, ℕ, take};
    ghost use Rattle.std.specs.Coded.{coded_list, coded_ℕ};
    ghost use Rattle.frame_codec.specs.Spelling.{most_octets};

    ghost Value = { List ℕ };

    ghost coded = { coded_list coded_ℕ };

    ghost view = { λ b. take b.len b.octets };

    ghost invariant = { λ b. b.len ≤ most_octets };
}

impl FrameBuf {
    /// No octets.
    pub fn new() -> Self
        ensures { result ≡ [] }
    {
        FrameBuf {
            octets: [0; MAX_FRAME],
            len: 0,
        }
    }

    /// The octets.
    pub fn as_slice(&self) -> &[u8]
        ensures value { result.now ≡ self.now }
        ensures fits { length result.now ≤ most_octets }
    {
        &self.octets[..self.len]
    }

    /// How many octets there are.
    pub fn len(&self) -> usize
        ensures value { result ≡ length self.now }
        ensures fits { result ≤ most_octets }
    {
        self.len
    }

    /// Empties the buffer.
    pub fn clear(&mut self)
        ensures { self.new ≡ [] }
    {
        self.len = 0;
    }

    /// Appends an octet.
    pub fn push(&mut self, octet: u8)
        requires { length self.old < most_octets }
        ensures { self.new ≡ self.old ++ octet ∷ [] }
    {
        self.octets[self.len] = octet;
        self.len += 1;
    }

    /// Appends octets.
    pub fn extend(&mut self, octets: &[u8])
        requires { length self.old + length octets.now ≤ most_octets }
        ensures { self.new ≡ self.old ++ octets.now }
    {
        write_at(&mut self.octets, self.len, octets);
        self.len += octets.len();
    }
}

/// In line it takes registers from all that stands around it.
#[inline(never)]
fn write_at(place: &mut [u8], start: usize, octets: &[u8])
    requires { start + length octets.now ≤ length place.old }
    ensures { place.new ≡ take start place.old ++ octets.now ++ drop (start + length octets.now) place.old }
{
    place[start..start + octets.len()].copy_from_slice(octets);
}

impl Default for FrameBuf {
    ghost use Rattle.std.specs.Prelude.{◌≡◌, []};

    ghost is_default = { λ b. b ≡ [] };

    fn default() -> Self {
        FrameBuf::new()
    }
}
