//! A prefix, and the addresses in it.

ghost use Rattle.std.specs.Prelude.{◌≡◌};
ghost use Rattle.ip_prefixes.specs.Prefixes.{first_bits, is_in, network_of, one_address};

/// The number of bits of an address.
const ADDRESS_BITS: u8 = 32;

/// The IPv4 addresses whose first bits are those of one address.
#[derive(Clone, Copy, Debug, PartialEq, Eq)]
pub struct Prefix {
    /// One of the addresses.
    pub address: [u8; 4],
    /// How many of its bits the others share, 0 to 32.
    pub bits: u8,
}

/// The first bits of an address, as a number.
fn first_bits(bits: u8, ip: [u8; 4]) -> u64
    ensures { result ≡ first_bits bits ip }
{
    u64::from(u32::from_be_bytes(ip)) >> ADDRESS_BITS.saturating_sub(bits)
}

impl Prefix {
    /// The prefix of one address alone.
    pub fn of_address(ip: [u8; 4]) -> Prefix
        ensures { result ≡ one_address ip }
    {
        Prefix {
            address: ip,
            bits: ADDRESS_BITS,
        }
    }

    /// Whether an address is in it.
    pub fn has(&self, ip: [u8; 4]) -> bool
        ensures { result ≡ is_in self.now ip }
    {
        first_bits(self.bits, ip) == first_bits(self.bits, self.address)
    }

    /// The first address in it.
    pub fn network(&self) -> [u8; 4]
        ensures { result ≡ network_of self.now }
    {
        let address = u32::from_be_bytes(self.address);
        let others = ADDRESS_BITS.saturating_sub(self.bits);
        let first = u64::from(address) >> others << others;
        (first as u32).to_be_bytes()
    }
}
