// The places where a reset configuration half word is searched for (01, "Choosing how to boot"; 000, 16.3.2.1.1 and 16.3.2.2.5).
#![tactic(auto)]

ghost use Rattle.std.specs.Prelude.{◌≡◌, ◌≤◌, length};
ghost use Rattle.boot_rchw.specs.Places.{flash_places, external_places, good_place, searched};

// The first good place, where there is one, and how many places the search examined.
#[derive(Clone, Copy)]
pub struct Search {
    pub found: Option<u32>,
    pub examined: u8,
}

const PLACES: [u32; 6] = [0x0, 0x4000, 0x10000, 0x1C000, 0x20000, 0x30000];

// Whether the 8 bytes of a place lie in the memory, with 0x5A as the second.
#[tactic(auto, unfolding(crate::specs::Places::good_place))]
fn is_good_place(memory: &[u8], place: u32) -> bool
    ensures { result ≡ good_place memory.now place }
{
    let at = place as usize;
    (at + 8 <= memory.len()) & (octets::byte(memory, at + 1) == 0x5A)
}

// The search of places, one after the other, up to the first good one. The count is part of the answer, and `break` is the form that 01 names.
#[tactic(auto, using(crate::proofs::Searching::search_found, crate::proofs::Searching::search_on, crate::proofs::Searching::search_none))]
fn look_in_turn(memory: &[u8], places: &[u32]) -> Search
    requires { length places.now ≤ 6 }
    ensures { result ≡ searched memory.now 0 places.now }
{
    let mut examined = 0;
    let mut found = None;
    for &place in places {
        examined += 1;
        if is_good_place(memory, place) {
            found = Some(place);
            break;
        }
    }
    Search { found, examined }
}

// The first good place of the flash.
#[tactic(auto, unfolding(crate::specs::Places::flash_places))]
pub fn first_good(flash: &[u8]) -> Search
    ensures { result ≡ searched flash.now 0 flash_places }
{
    look_in_turn(flash, &PLACES)
}

// The search of the one place of the external head.
#[tactic(auto, unfolding(crate::specs::Places::external_places))]
pub fn examine_external(external: &[u8]) -> Search
    ensures { result ≡ searched external.now 0 external_places }
{
    look_in_turn(external, &[0])
}
