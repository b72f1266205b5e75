// The header of a load (01, "A serial session"; 003).
#![tactic(auto)]

ghost use Rattle.std.specs.Prelude.{◌≡◌};
ghost use Rattle.header.specs.Reading.{header_read, validated};

use session_configuration::Configuration;
use session_state::Refusal;
use sram::Aligned;

// Where a load starts, whether it is VLE code, and how many bytes it announces.
#[derive(Clone, Copy)]
pub struct Header {
    pub start: Aligned,
    pub vle: bool,
    pub length: u32,
}

// What 8 bytes say as a header.
fn read(configuration: Configuration, bytes: [u8; 8]) -> Header
    ensures { result ≡ header_read configuration bytes }
{
    let all = &bytes[..];
    Header {
        start: sram::align(octets::word(all, 0)),
        vle: octets::byte(all, 4) / 128 == 1,
        length: octets::word(all, 4) % 0x8000_0000,
    }
}

// A header that fits, or why it is refused (`session_answers: Answers.refusal_number` gives the number, 3 or 4).
#[tactic(auto, unfolding(crate::specs::Reading::validated))]
fn check(configuration: Configuration, header: Header) -> Result<Header, Refusal>
    ensures { result ≡ validated configuration header }
{
    if header.length == 0 {
        return Err(Refusal::Length);
    }
    if !sram::is_in_range(configuration, header.start.0, header.length) {
        return Err(Refusal::Range);
    }
    Ok(header)
}

// What becomes of 8 header bytes.
pub fn validate(configuration: Configuration, bytes: [u8; 8]) -> Result<Header, Refusal>
    ensures { result ≡ validated configuration (header_read configuration bytes) }
{
    check(configuration, read(configuration, bytes))
}
