// SRAM written in groups of 8 bytes (02, E4): how many bytes of an unfinished group are held, and what is stored of it.
#![tactic(auto)]

ghost use Rattle.std.specs.Prelude.{◌≡◌, ◌++◌, ◌+◌, ◌*◌, ◌/◌, ◌%◌, ◌≤◌, max, length};
ghost use Rattle.buffers.specs.Write.{over};
ghost use Rattle.sram.specs.Region.{stored_in_range};
ghost use Rattle.sram_groups.specs.Groups.{group_of, held_count, zeros, behind, written, stored_within};

use session_configuration::Configuration;

// The address from which bytes of a load are held.
fn held_from(start: u32, next: u32) -> u32
    ensures { result ≡ max start (group_of next) }
{
    start.max(next / 8 * 8)
}

// How many bytes of a load are held.
#[tactic(auto, unfolding(crate::specs::Groups::held_count))]
pub fn held_count(start: u32, next: u32) -> u8
    ensures { result ≡ held_count start next }
{
    next.saturating_sub(held_from(start, next)) as u8
}

// How many bytes are written of so many from the beginning of a group on.
#[tactic(auto, unfolding(crate::specs::Groups::zeros))]
fn written_count(last: bool, many: usize) -> usize
    requires { many ≤ 16 }
    ensures count { result ≡ (many + length (behind «last»)) / 8 * 8 }
    ensures within { result ≤ 16 }
{
    if last {
        many.next_multiple_of(8)
    } else {
        many / 8 * 8
    }
}

// Two groups of zeroes with the bytes held, and more behind them, from a place on.
fn gather(from: usize, held: &[u8], bytes: &[u8]) -> [u8; 16]
    requires { from + length held.now + length bytes.now ≤ 16 }
    ensures { result ≡ over (zeros from ++ (held.now ++ bytes.now)) (zeros 16) }
{
    let mut groups = [0; 16];
    buffers::fill(&mut groups[from..], held);
    buffers::fill(&mut groups[from + held.len()..], bytes);
    groups
}

// Stores the groups that are full. A byte that fills none is not gathered. It takes what `store` takes, which has tested that there is room.
#[tactic(auto, using(crate::proofs::Gathering::gathered_written, crate::proofs::Gathering::none_written))]
fn store_full(
    configuration: Configuration,
    sram: &mut [u8],
    address: u32,
    held: &[u8],
    bytes: &[u8],
    last: bool,
)
    requires { address % 8 + length held.now + length bytes.now ≤ 16 }
    ensures { sram.new ≡ stored_in_range configuration sram.old (group_of address) (written «last» address (held.now ++ bytes.now)) }
{
    let from = (address % 8) as usize;
    let many = written_count(last, from + held.len() + bytes.len());
    if 0 < many {
        let groups = gather(from, held, bytes);
        sram::store(configuration, sram, address / 8 * 8, &groups[..many]);
    }
}

// Stores what is full of the groups of the bytes held, which begin at an address, and of more behind them. Of bytes for which two groups have
// no room none is stored.
#[tactic(auto, using(crate::proofs::Gathering::within_two, crate::proofs::Gathering::beyond_two))]
pub fn store(
    configuration: Configuration,
    sram: &mut [u8],
    address: u32,
    held: &[u8],
    bytes: &[u8],
    last: bool,
)
    ensures { sram.new ≡ stored_within configuration «last» sram.old address (held.now ++ bytes.now) }
{
    let from = (address % 8) as usize;
    if held.len() <= 16 - from && bytes.len() <= 16 - (from + held.len()) {
        store_full(configuration, sram, address, held, bytes, last);
    }
}
