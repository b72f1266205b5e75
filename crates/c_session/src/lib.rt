// Sessions as bytes and numbers, written and read, as they cross the C interface (include/boot_assist.h).
#![tactic(auto)]

ghost use Rattle.std.specs.Prelude.{◌≡◌, length};
ghost use Rattle.octets.specs.Same.{same};
ghost use Rattle.c_answer.specs.Writing.{as_flat};
ghost use Rattle.c_session.specs.Writing.{stage_number, port_number, port_in, load_numbers, configuration_numbers, session_numbers, session_bytes_width, session_bytes, session_places};
ghost use Rattle.c_session.specs.Reading.{Written, number_at, port_read, load_read, refusal_read, jump_read, stage_read, configuration_read, session_read, unsound_session, session_in};

use session_configuration::Configuration;
use session_state::{Jump, Load, Port, Refusal, Session, Stage};
use sram::Aligned;

// How many bytes a session has, and how many numbers.
pub const SESSION_BYTES: usize = 16;

pub const SESSION_WIDTH: usize = 9;

// Whether there are places for a session.
pub fn has_places(bytes: &[u8], numbers: &[u32]) -> bool
    ensures { result ≡ session_places (as_flat bytes.now numbers.now) }
{
    c_answer::has_room::<SESSION_BYTES, SESSION_WIDTH>(bytes, numbers)
}

// The number of a port. Neither this nor the next is a `From`: both types are of session_state, and their numbers are C's.
pub fn port_number(port: Port) -> u32
    ensures { result ≡ port_number port }
{
    match port {
        Port::Can => 0,
        Port::Serial => 1,
    }
}

// The number of a stage.
fn stage_number(stage: Stage) -> u32
    ensures { result ≡ stage_number stage }
{
    match stage {
        Stage::Waiting => 0,
        Stage::Password => 1,
        Stage::Header(_) => 2,
        Stage::Data(_, _) => 3,
        Stage::Stopped(_) => 4,
        Stage::Jumped(_) => 5,
    }
}

// The number of a stage's port, or 0 where it has none.
fn port_in(stage: Stage) -> u32
    ensures { result ≡ port_in stage }
{
    match stage {
        Stage::Password => 1,
        Stage::Header(port) | Stage::Data(port, _) => port_number(port),
        _ => 0,
    }
}

// The numbers of a load, of a jump and of a stop.
fn load_numbers(stage: Stage) -> [u32; 5]
    ensures { result ≡ load_numbers stage }
{
    match stage {
        Stage::Data(_, load) => [
            load.start.0,
            c_answer::flag(load.vle),
            load.next,
            load.owed,
            0,
        ],
        Stage::Stopped(refusal) => [
            0,
            c_answer::flag(session_state::accepted_vle(stage)),
            0,
            0,
            u32::from(session_answers::refusal_number(refusal)),
        ],
        Stage::Jumped(jump) => [jump.start.0, c_answer::flag(jump.vle), 0, 0, 0],
        _ => [0; 5],
    }
}

// What else a configuration has beside its password.
fn configuration_numbers(configuration: Configuration) -> [u32; 1]
    ensures { result ≡ configuration_numbers configuration }
{
    [c_answer::entered_number(configuration.entered)]
}

// The numbers of a session.
fn session_numbers(session: Session) -> [u32; SESSION_WIDTH]
    ensures { result ≡ session_numbers session }
{
    let [start, vle, next, owed, refusal] = load_numbers(session.stage);
    let [entered] = configuration_numbers(session.configuration);
    [
        stage_number(session.stage),
        port_in(session.stage),
        u32::from(session.count),
        start,
        vle,
        next,
        owed,
        refusal,
        entered,
    ]
}

// The bytes of a session: the password selected, and the bytes held.
fn session_bytes(session: Session) -> [u8; SESSION_BYTES]
    ensures { result ≡ session_bytes session }
{
    let mut bytes = [0; SESSION_BYTES];
    bytes[..8].copy_from_slice(&session.configuration.password);
    bytes[8..].copy_from_slice(&session.held);
    bytes
}

// Writes a session, where there are places for it.
pub fn put_session(bytes: &mut [u8], numbers: &mut [u32], session: Session)
    ensures { Written session (as_flat bytes.old numbers.old) (as_flat bytes.new numbers.new) }
{
    c_answer::put(
        bytes,
        numbers,
        session_bytes(session),
        session_numbers(session),
    );
}

// The number at a place, or 0 past the end: one call of the library, as `octets::byte` is, each with its own definition.
pub fn number_at(numbers: &[u32], at: usize) -> u32
    ensures { result ≡ number_at numbers.now at }
{
    numbers.get(at).copied().unwrap_or(0)
}

// The port, the load, the refusal and the jump that a stage may have. Their numbers are C's, as above, so that none is read by a `From`.
#[tactic(auto, unfolding(crate::specs::Reading::port_read))]
fn read_port(numbers: &[u32]) -> Port
    ensures { result ≡ port_read numbers.now }
{
    if number_at(numbers, 1) == 0 {
        Port::Can
    } else {
        Port::Serial
    }
}

fn read_load(numbers: &[u32]) -> Load
    ensures { result ≡ load_read numbers.now }
{
    Load {
        start: Aligned(number_at(numbers, 3)),
        vle: number_at(numbers, 4) == 1,
        next: number_at(numbers, 5),
        owed: number_at(numbers, 6),
    }
}

#[tactic(auto, unfolding(crate::specs::Reading::refusal_read))]
fn read_refusal(numbers: &[u32]) -> Refusal
    ensures { result ≡ refusal_read numbers.now }
{
    match number_at(numbers, 7) {
        2 => Refusal::Password,
        3 => Refusal::Length,
        4 => Refusal::Range,
        _ => Refusal::FaultyByte(number_at(numbers, 4) == 1),
    }
}

fn read_jump(numbers: &[u32]) -> Jump
    ensures { result ≡ jump_read numbers.now }
{
    Jump {
        start: Aligned(number_at(numbers, 3)),
        vle: number_at(numbers, 4) == 1,
    }
}

// The stage.
#[tactic(auto, unfolding(crate::specs::Reading::stage_read))]
fn read_stage(numbers: &[u32]) -> Stage
    ensures { result ≡ stage_read numbers.now }
{
    match number_at(numbers, 0) {
        0 => Stage::Waiting,
        1 => Stage::Password,
        2 => Stage::Header(read_port(numbers)),
        3 => Stage::Data(read_port(numbers), read_load(numbers)),
        4 => Stage::Stopped(read_refusal(numbers)),
        _ => Stage::Jumped(read_jump(numbers)),
    }
}

// The configuration with a password.
fn configuration_in(selected: [u8; 8], numbers: &[u32]) -> Configuration
    ensures { result ≡ configuration_read selected numbers.now }
{
    Configuration {
        password: selected,
        entered: c_answer::entered_of(number_at(numbers, 8)),
    }
}

// The session that bytes and numbers read as.
fn decode(bytes: &[u8], numbers: &[u32]) -> Session
    requires { length bytes.now ≡ session_bytes_width }
    ensures { result ≡ session_read (as_flat bytes.now numbers.now) }
{
    let (selected, held) = bytes.split_at(8);
    Session {
        configuration: configuration_in(buffers::eight_of(selected), numbers),
        stage: read_stage(numbers),
        held: buffers::eight_of(held),
        count: (number_at(numbers, 2) % 256) as u8,
    }
}

// A session that is not sound: waiting, with a byte held.
fn unsound(numbers: &[u32]) -> Session
    ensures { result ≡ unsound_session numbers.now }
{
    Session {
        configuration: configuration_in([0; 8], numbers),
        stage: Stage::Waiting,
        held: [0; 8],
        count: 1,
    }
}

// Whether a session has these numbers.
#[tactic(auto, using(octets::proofs::Comparing::same_pointwise, crate::proofs::Lengths::other_count))]
fn has_numbers(session: Session, numbers: &[u32]) -> bool
    ensures { result ≡ same (session_numbers session) numbers.now }
{
    match numbers.as_array() {
        Some(given) => session_numbers(session) == *given,
        None => false,
    }
}

// The session of bytes and numbers, or one that is not sound where no session has them.
// It is no `Option`: `session_in`, by which every call for C that takes a session is stated, has a session for all bytes and numbers.
#[tactic(auto, unfolding(crate::specs::Reading::session_in, crate::specs::Reading::encodes))]
pub fn read_session(bytes: &[u8], numbers: &[u32]) -> Session
    ensures { result ≡ session_in (as_flat bytes.now numbers.now) }
{
    if !has_places(bytes, numbers) {
        return unsound(numbers);
    }
    let read = decode(bytes, numbers);
    if has_numbers(read, numbers) {
        read
    } else {
        unsound(numbers)
    }
}
