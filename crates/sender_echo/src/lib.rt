// When what the truck hears is the echo that it waits for (02, E1).
#![tactic(auto)]

ghost use Rattle.std.specs.Prelude.{◌≡◌};
ghost use Rattle.sender_echo.specs.Hearing.{heard_under, is_echo};

use session_answers::Echo;
use session_state::Port;

// What is heard at a port: bytes, by CAN under an identifier, which is not looked at for serial.
#[derive(Clone, Copy)]
pub struct Heard<'a> {
    pub port: Port,
    pub identifier: u32,
    pub bytes: &'a [u8],
}

// Whether an echo heard at a port is that of the load's port, under the identifier due.
fn is_heard_under(port: Port, heard: Port, due: u32, identifier: u32) -> bool
    ensures { result ≡ heard_under port heard due identifier }
{
    match (port, heard) {
        (Port::Can, Port::Can) => identifier == due,
        (Port::Serial, Port::Serial) => true,
        _ => false,
    }
}

// Whether what is heard is the echo due. Eight bytes, as a full frame's echo has, are compared as a whole, for speed.
#[tactic(auto, using(std::proofs::lemmas::List::take_min, octets::proofs::Comparing::same_pointwise), unfolding(crate::specs::Hearing::is_echo))]
pub fn is_echo(port: Port, due: Echo, heard: Heard) -> bool
    ensures { result ≡ is_echo port due heard.entry.port heard.entry.identifier heard.entry.bytes.now }
{
    let count = octets::least(usize::from(due.length), due.bytes.len());
    if !is_heard_under(port, heard.port, due.identifier, heard.identifier) {
        return false;
    }
    match heard.bytes.as_array() {
        Some(eight) if due.length == 8 => *eight == due.bytes,
        _ => heard.bytes == &due.bytes[..count],
    }
}
