//! What an address of a debugger names.

ghost use Rattle.std.specs.Prelude.{◌≡◌, ◌<◌, ◌^◌};
ghost use Rattle.memory_sights.specs.Sights.{canonical_from, sight_by, sight_of};

use nk_bits::canonical;

/// What an address names.
#[derive(Clone, Copy, Debug, PartialEq, Eq)]
pub enum Sight {
    /// A linear address, as it is seen at this CPL.
    Linear(u8, u64),
    /// A place in memory.
    Physical(u64),
    /// Nothing.
    Nowhere,
}

/// 48 bits as a canonical address.
fn canonical_from(low: u64) -> u64
    requires { low < 2 ^ 48 }
    ensures { result ≡ canonical_from low }
{
    if low < 1 << 47 {
        low
    } else {
        low + 0xFFFF_0000_0000_0000
    }
}

/// What an address that isn't canonical names, by its highest 16 bits and the others.
fn sight_by(high: u64, low: u64) -> Sight
    requires { low < 2 ^ 48 }
    ensures { result ≡ sight_by high low }
{
    match high {
        0x0100 => Sight::Physical(low),
        0x0200 => Sight::Linear(3, canonical_from(low)),
        _ => Sight::Nowhere,
    }
}

/// What an address names: a linear address as the supervisor sees it, or by its highest bits.
#[tactic(auto, unfolding(crate::specs::Sights::sight_of))]
pub fn sight_of(address: u64) -> Sight
    ensures { result ≡ sight_of address }
{
    if canonical(address) {
        Sight::Linear(0, address)
    } else {
        sight_by(address >> 48, address % (1 << 48))
    }
}
