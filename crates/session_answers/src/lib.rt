// What the head says back (01, "What the head says back"): the answer to an item, with its number and its echo, and the precheck that comes
// before the session's rules.
#![tactic(auto)]

ghost use Rattle.std.specs.Prelude.{◌≡◌, take};
ghost use Rattle.session_answers.specs.Answers.{refusal_number, fault_number, outcome_number, precheck, under_port, echo_under, no_echo, echo_identifier, echo_of, without_echo, nothing_taken};

use session_items::Role;
use session_state::{Jump, Port, Refusal, Session};

// The echo: the first `length` of `bytes` (`replay_window` and `sender_echo` cut them by their own definitions), for CAN under an identifier, which is 0 for serial and where nothing is echoed. The bytes are eight with
// zeroes behind, since an answer for C fills eight places (`c_answer: Writing.echo_bytes`).
#[derive(Clone, Copy)]
pub struct Echo {
    pub identifier: u32,
    pub length: u8,
    pub bytes: [u8; 8],
}

// Why a call is refused: the item's form, the size of SRAM, or a session that is not sound.
#[derive(Clone, Copy)]
pub enum Fault {
    Form,
    Size,
    Unsound,
}

// What becomes of an item (`outcome_number` of specs/ gives the number).
#[derive(Clone, Copy)]
pub enum Outcome {
    Taken,
    Ignored,
    Stops(Refusal),
    Jumps(Jump),
    Refused(Fault),
}

// The answer to an item.
#[derive(Clone, Copy)]
pub struct Answer {
    pub outcome: Outcome,
    pub echo: Echo,
}

// The result of a step: the answer, and the session after it.
#[derive(Clone, Copy)]
pub struct StepResult {
    pub answer: Answer,
    pub session: Session,
}

// The number of a refusal. It is no `From`: `Refusal` is of `session_state`, and the definition that states the number, `Answers.refusal_number`, is
// of this crate, where it keeps its name.
pub fn refusal_number(refusal: Refusal) -> u8
    ensures { result ≡ refusal_number refusal }
{
    match refusal {
        Refusal::Password => 2,
        Refusal::Length => 3,
        Refusal::Range => 4,
        Refusal::FaultyByte(_) => 12,
    }
}

// The number of a refused call.
impl From<Fault> for u8 {
    ghost from_gives = { λ fault number. number ≡ fault_number fault };

    fn from(fault: Fault) -> u8 {
        match fault {
            Fault::Form => 6,
            Fault::Size => 7,
            Fault::Unsound => 8,
        }
    }
}

// The number of an outcome.
impl From<Outcome> for u8 {
    ghost from_gives = { λ outcome number. number ≡ outcome_number outcome };

    fn from(outcome: Outcome) -> u8 {
        match outcome {
            Outcome::Taken => 0,
            Outcome::Ignored => 1,
            Outcome::Stops(refusal) => refusal_number(refusal),
            Outcome::Jumps(_) => 5,
            Outcome::Refused(fault) => fault.into(),
        }
    }
}

// An identifier, which only CAN has.
fn under_port(port: Port, identifier: u32) -> u32
    ensures { result ≡ under_port port identifier }
{
    match port {
        Port::Can => identifier,
        Port::Serial => 0,
    }
}

// The echo of bytes under an identifier: of the first eight, which is all that an item has.
fn echo_under(identifier: u32, bytes: &[u8]) -> Echo
    ensures { result ≡ echo_under identifier (take 8 bytes.now) }
{
    Echo {
        identifier,
        length: bytes.len().min(8) as u8,
        bytes: buffers::eight_of(bytes),
    }
}

// No echo. It is not derived, since its clause states `no_echo`, which `must-fail/echo_where_none.edit` tries.
impl Default for Echo {
    ghost is_default = { λ echo. echo ≡ no_echo };

    fn default() -> Echo {
        Echo {
            identifier: 0,
            length: 0,
            bytes: [0; 8],
        }
    }
}

// The identifier under which CAN echoes what is taken in a role. Its column of 01's table is a definition of its own, apart from
// `sender_load: Items.identifier_for`.
fn echo_identifier(role: Role) -> u32
    ensures { result ≡ echo_identifier role }
{
    match role {
        Role::Password => 0x001,
        Role::Header => 0x002,
        Role::Data(_) => 0x003,
    }
}

// The echo of bytes that are taken in a role by a port.
pub fn echo_of(role: Role, port: Port, bytes: &[u8]) -> Echo
    ensures { result ≡ echo_of role port (take 8 bytes.now) }
{
    echo_under(under_port(port, echo_identifier(role)), bytes)
}

// An answer without an echo, and the session that the step leaves.
pub fn without_echo(outcome: Outcome) -> Answer
    ensures { result ≡ without_echo outcome }
{
    Answer {
        outcome,
        echo: Echo::default(),
    }
}

pub fn take_nothing(session: Session, outcome: Outcome) -> StepResult
    ensures { result ≡ nothing_taken outcome session }
{
    StepResult {
        answer: without_echo(outcome),
        session,
    }
}

// What comes before the session's rules: 7, then 8, then 6 for what is handed in where it is not of the right form.
#[tactic(auto, unfolding(crate::specs::Answers::precheck))]
pub fn precheck(session: Session, sram: &[u8], formed: bool) -> Result<(), Fault>
    ensures { result ≡ precheck session sram.now formed }
{
    if !sram::is_whole(session.configuration, sram) {
        return Err(Fault::Size);
    }
    if !session_state::is_sound(session) {
        return Err(Fault::Unsound);
    }
    if !formed {
        return Err(Fault::Form);
    }
    Ok(())
}
