// SRAM: where it lies, and bytes stored in it (01, "A serial session").
#![tactic(auto)]

ghost use Rattle.std.specs.Prelude.{◌≡◌, ◌/◌, ◌*◌, ◌^◌, ◌<◌};
ghost use Rattle.sram.specs.Region.{size, right_size, in_range, aligned, stored_in_range};

use session_configuration::Configuration;

// An address that stands for a start, whose two lowest bits are dropped; `is_aligned` tests one that was handed in.
#[derive(Clone, Copy)]
pub struct Aligned(pub u32);

const BASE: u32 = 0x4000_0000;

// How many bytes SRAM has.
#[tactic(auto, unfolding(crate::specs::Region::size))]
fn size_for(configuration: Configuration) -> u32
    ensures { result ≡ size configuration }
{
    65536
}

// Whether a memory has SRAM's size.
#[tactic(auto, unfolding(crate::specs::Region::size))]
pub fn is_whole(configuration: Configuration, sram: &[u8]) -> bool
    ensures { result ≡ right_size configuration sram.now }
{
    sram.len() == size_for(configuration) as usize
}

// Whether `count` bytes from an address lie wholly in SRAM.
#[tactic(auto, unfolding(crate::specs::Region::in_range, crate::specs::Region::base, crate::specs::Region::size))]
fn holds(configuration: Configuration, address: u32, count: usize) -> bool
    requires { count < 2 ^ 63 }
    ensures { result ≡ in_range configuration address count }
{
    let end = BASE as usize + size_for(configuration) as usize;
    BASE <= address && address as usize + count <= end
}

// `holds` of a count that a number of 32 bits can say.
pub fn is_in_range(configuration: Configuration, address: u32, count: u32) -> bool
    ensures { result ≡ in_range configuration address count }
{
    holds(configuration, address, count as usize)
}

// Whether an address is a multiple of 4 in SRAM.
#[tactic(auto, unfolding(crate::specs::Region::aligned))]
pub fn is_aligned(configuration: Configuration, address: Aligned) -> bool
    ensures { result ≡ aligned configuration address.0 }
{
    address.0 % 4 == 0 && is_in_range(configuration, address.0, 1)
}

// The address with its two lowest bits dropped.
pub fn align(address: u32) -> Aligned
    ensures { result.0 ≡ address / 4 * 4 }
{
    Aligned(address / 4 * 4)
}

// Stores bytes from an address on: the part of SRAM from there is lent on and receives them. If not all of them are in range, none
// is stored.
#[tactic(auto, using(crate::proofs::Lending::sram_back), unfolding(crate::specs::Region::in_range, crate::specs::Region::base, crate::specs::Region::stored_in_range))]
pub fn store(configuration: Configuration, sram: &mut [u8], address: u32, bytes: &[u8])
    ensures { sram.new ≡ stored_in_range configuration sram.old address bytes.now }
{
    if is_whole(configuration, sram) && holds(configuration, address, bytes.len()) {
        let at = (address - BASE) as usize;
        buffers::fill(&mut sram[at..], bytes);
    }
}
