//! Addresses of this machine and of those who may connect.
ghost use Rattle.std.specs.Prelude.{◌≡◌, MatchOption};
ghost use Rattle.std.specs.List.{list_any};
ghost use Rattle.service_files.specs.Addresses.{width, bits_of, first_bits, has_first_bits, is_here, allows};
ghost use Rattle.service_files.specs.Addresses.{IsPrefixText, same_address, same_place};

use std::net::{IpAddr, SocketAddr};

/// Who may connect: those whose address has one of these prefixes, or, if none are given, this machine alone.
#[derive(Drop)]
pub struct Allow {
    pub prefixes: Option<Vec<Prefix>>,
}

impl Allow {
    /// Whether a client with this address may connect.
    pub fn allows(&self, address: IpAddr) -> bool
        ensures { result ≡ allows self.now address }
    {
        match self.prefixes.as_ref() {
            None => is_here(address),
            Some(prefixes) => one_holds(prefixes, address),
        }
    }
}

/// The first bits of an address, as in `10.0.0.0/8`.
#[derive(Clone, Copy)]
pub struct Prefix {
    address: IpAddr,
    length: u8,
}

impl Prefix {
    /// Reads an address, `/` and how many of its bits count. None if the text has another form, or more bits are to
    /// count than there are.
    pub fn read(text: &str) -> Option<Prefix>
        ensures { MatchOption result ((prefix : Prefix) → ¬ IsPrefixText text.now prefix) (IsPrefixText text.now) }
    {
        let (address, length) = text.split_once('/')?;
        let address = address.parse::<IpAddr>().ok()?;
        let length = length.parse::<u8>().ok()?;
        if u32::from(length) <= width(address) {
            Some(Prefix { address, length })
        } else {
            None
        }
    }

    /// Whether an address has these first bits.
    pub fn holds(&self, address: IpAddr) -> bool
        ensures { result ≡ has_first_bits self.now.address self.now.length address }
    {
        width(address) == width(self.address)
            && first_bits(address, self.length) == first_bits(self.address, self.length)
    }
}

/// Whether an address has one of these prefixes.
fn one_holds(prefixes: &[Prefix], address: IpAddr) -> bool
    ensures { result ≡ list_any (λ prefix. has_first_bits prefix.address prefix.length address) prefixes.now }
{
    prefixes.iter().any(|prefix| prefix.holds(address))
}

/// How many bits an address has.
fn width(address: IpAddr) -> u32
    ensures { result ≡ width address }
{
    match address {
        IpAddr::V4(_) => 32,
        IpAddr::V6(_) => 128,
    }
}

fn bits_of(address: IpAddr) -> u128
    ensures { result ≡ bits_of address }
{
    match address {
        IpAddr::V4(address) => u128::from(address.to_bits()),
        IpAddr::V6(address) => address.to_bits(),
    }
}

/// The first bits of an address, as a number.
fn first_bits(address: IpAddr, length: u8) -> u128
    ensures { result ≡ first_bits address length }
{
    let rest = width(address).saturating_sub(u32::from(length));
    bits_of(address).unbounded_shr(rest)
}

/// Whether an address is one of this machine alone: one of 127.0.0.0/8, or ::1.
pub(crate) fn is_here(address: IpAddr) -> bool
    ensures { result ≡ is_here address }
{
    match address {
        IpAddr::V4(address) => address.to_bits() / 0x0100_0000 == 127,
        IpAddr::V6(address) => address.to_bits() == 1,
    }
}

/// Whether two ports of IP addresses are the same. At port 0 the system chooses one, which is never another's.
pub(crate) fn same_place(one: SocketAddr, other: SocketAddr) -> bool
    ensures { result ≡ same_place one other }
{
    one.port() != 0 && one.port() == other.port() && same_address(one.ip(), other.ip())
}

fn same_address(one: IpAddr, other: IpAddr) -> bool
    ensures { result ≡ same_address one other }
{
    match one {
        IpAddr::V4(one) => match other {
            IpAddr::V4(other) => one.to_bits() == other.to_bits(),
            IpAddr::V6(_) => false,
        },
        IpAddr::V6(one) => match other {
            IpAddr::V4(_) => false,
            IpAddr::V6(other) => one.to_bits() == other.to_bits(),
        },
    }
}
