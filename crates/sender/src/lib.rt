// The truck's side (02, E1): a load is begun, its items are asked for, and the echoes told. The image is handed in beside the sender at each call,
// as C lends it, since a sender is kept as numbers between them.
#![tactic(auto)]

ghost use Rattle.std.specs.Prelude.{◌≡◌, ◌+◌, ◌^◌, ◌<◌, Ok, true, length};
ghost use Rattle.sender_load.specs.Items.{width};
ghost use Rattle.sender.specs.Calls.{begun_number, unheard_number, answer_number, head_with, idle, load_begun, left_by, heeded, as_reply, asked, echo_told, told};

use sender_echo::Heard;
use sender_load::{Sender, Sent};
use session_configuration::{Configuration, Entered};
use session_state::{Port, Refusal};

// Why a sender that is asked or told does nothing: no load is going or no item is out, or the load is not sound.
#[derive(Clone, Copy)]
pub enum Unheard {
    Ignored,
    Unsound,
}

// What becomes of a load.
#[derive(Clone, Copy)]
pub enum Verdict {
    GoesOn,
    Done,
    Abandoned,
}

// The number of why nothing was done.
impl From<Unheard> for u8 {
    ghost from_gives = { λ unheard number. number ≡ unheard_number unheard };

    fn from(unheard: Unheard) -> u8 {
        match unheard {
            Unheard::Ignored => 1,
            Unheard::Unsound => 8,
        }
    }
}

// The number of what beginning says. It is not `answer_number` too: a refusal's number is no `From` (`session_answers::refusal_number`).
pub fn begun_number<T: Copy>(begun: Result<T, Refusal>) -> u8
    ensures { result ≡ begun_number begun }
{
    match begun {
        Ok(_) => 0,
        Err(refusal) => session_answers::refusal_number(refusal),
    }
}

// The number of what asking or telling says. It is no `From`: Result and the number are std's.
pub fn answer_number<T: Copy>(answer: Result<T, Unheard>) -> u8
    ensures { result ≡ answer_number answer }
{
    match answer {
        Ok(_) => 0,
        Err(unheard) => u8::from(unheard),
    }
}

// The configuration of a head, as far as the truck knows it. It is no `From`: no type of it is of this crate.
pub fn head_with(password: [u8; 8]) -> Configuration
    ensures { result ≡ head_with password }
{
    Configuration {
        password,
        entered: Entered::Directly,
    }
}

// No load is going.
pub fn no_load() -> Sender
    ensures { result ≡ idle }
{
    Sender {
        going: false,
        configuration: head_with([0; 8]),
        port: Port::Can,
        start: 0,
        vle: false,
        length: 0,
        place: 0,
        out: false,
    }
}

// Begins a load, unless the head would answer its header with 3 or 4.
#[tactic(auto, using(sender_load::proofs::Laws::fit_length), unfolding(crate::specs::Calls::load_begun))]
pub fn begin(
    port: Port,
    start: u32,
    vle: bool,
    password: [u8; 8],
    image: &[u8],
) -> Result<Sender, Refusal>
    ensures { result ≡ load_begun port start vle password (length image.now) }
{
    let configuration = head_with(password);
    let header = sender_header::judge(configuration, start, vle, image.len())?;
    Ok(Sender {
        going: true,
        configuration,
        port,
        start,
        vle,
        length: header.length,
        place: 0,
        out: false,
    })
}

// The sender that beginning leaves: where a load is refused none is going, whatever was before.
pub fn left_by(begun: Result<Sender, Refusal>) -> Sender
    ensures { result ≡ left_by begun }
{
    begun.unwrap_or(no_load())
}

// Whether a load is going, and is sound.
#[tactic(auto, unfolding(crate::specs::Calls::heeded))]
fn heed(sender: Sender, image: &[u8]) -> Result<(), Unheard>
    ensures { result ≡ heeded sender image.now }
{
    if !sender.going {
        return Err(Unheard::Ignored);
    }
    if !sender.is_sound(image) {
        return Err(Unheard::Unsound);
    }
    Ok(())
}

// Asks for the next item.
#[tactic(auto, unfolding(crate::specs::Calls::heeded, crate::specs::Calls::asked))]
pub fn ask(sender: &mut Sender, image: &[u8]) -> Result<Sent, Unheard>
    ensures { as_reply result sender.new ≡ asked sender.old image.now }
{
    heed(*sender, image)?;
    let sent = sender.sent_at(image);
    sender.out = true;
    Ok(sent)
}

// The right echo moves a load on, or ends it. A sound load has room for both places.
fn move_on(sender: &mut Sender) -> Verdict
    requires end { 16 + sender.old.length < 2 ^ 32 }
    requires next { sender.old.place + width sender.old.port < 2 ^ 32 }
    ensures { as_reply (Ok result) sender.new ≡ echo_told true sender.old }
{
    let place = sender.place + sender_load::width_by(sender.port);
    if 16 + sender.length <= place {
        *sender = no_load();
        return Verdict::Done;
    }
    sender.place = place;
    sender.out = false;
    Verdict::GoesOn
}

// Tells what was heard.
#[tactic(auto, using(sender_load::proofs::Laws::end_short, sender_load::proofs::Laws::next_short), unfolding(crate::specs::Calls::heeded, crate::specs::Calls::told))]
pub fn tell(sender: &mut Sender, image: &[u8], heard: Heard) -> Result<Verdict, Unheard>
    ensures { as_reply result sender.new ≡ told sender.old image.now heard.entry.port heard.entry.identifier heard.entry.bytes.now }
{
    heed(*sender, image)?;
    if !sender.out {
        return Err(Unheard::Ignored);
    }
    let due = sender.echo_due(image);
    if sender_echo::is_echo(sender.port, due, heard) {
        return Ok(move_on(sender));
    }
    *sender = no_load();
    Ok(Verdict::Abandoned)
}
