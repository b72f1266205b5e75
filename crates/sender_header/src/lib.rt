// The header of a load as its sender writes it, and what the head would make of it (02, E1).
#![tactic(auto)]

ghost use Rattle.std.specs.Prelude.{◌≡◌};
ghost use Rattle.header.specs.Reading.{validated};
ghost use Rattle.sender_header.specs.Writing.{Written, length_word, header_meant};

use header::Header;
use session_configuration::Configuration;
use session_state::Refusal;

// The VLE bit, and below it 31 bits of length.
fn length_word(vle: bool, length: u32) -> u32
    ensures { result ≡ length_word vle length }
{
    if vle {
        return 0x8000_0000 + length % 0x8000_0000;
    }
    length % 0x8000_0000
}

// The 8 bytes of a header. The start, the VLE bit and the length stay parameters: here a length has 32 bits, and below it may have any size.
pub fn write(configuration: Configuration, start: u32, vle: bool, length: u32) -> [u8; 8]
    ensures { Written configuration start vle length result }
{
    let mut bytes = [0; 8];
    bytes[..4].copy_from_slice(&octets::word_bytes(start));
    bytes[4..].copy_from_slice(&octets::word_bytes(length_word(vle, length)));
    bytes
}

// What becomes of a load with an image of this length: what the head makes of its header, and 4 where the header has no place for the length.
#[tactic(auto, using(crate::proofs::Laws::too_long))]
pub fn judge(
    configuration: Configuration,
    start: u32,
    vle: bool,
    length: usize,
) -> Result<Header, Refusal>
    ensures { result ≡ validated configuration (header_meant start vle length) }
{
    if length >= 0x8000_0000 {
        return Err(Refusal::Range);
    }
    let bytes = write(configuration, start, vle, length as u32);
    header::validate(configuration, bytes)
}
