// The stages of a serial session (01, "A serial session"): what a session holds, when it is sound, and the VLE bit of the header that it
// has accepted.
#![tactic(auto)]

ghost use Rattle.std.specs.Prelude.{◌≡◌};
ghost use Rattle.session_state.specs.Sound.{load_fits, sound};
ghost use Rattle.session_state.specs.Accepted.{accepted_vle};

use session_configuration::Configuration;
use sram::Aligned;

// The two ports.
#[derive(Clone, Copy)]
pub enum Port {
    Can,
    Serial,
}

// A load that has begun: where it starts, whether it is VLE code, the next address and how many bytes are still owed. It holds no Jump, though it has one's
// fields: the definitions go by `load.start` and `load.vle`.
#[derive(Clone, Copy)]
pub struct Load {
    pub start: Aligned,
    pub vle: bool,
    pub next: u32,
    pub owed: u32,
}

// Where the head jumps, and whether to VLE code.
#[derive(Clone, Copy)]
pub struct Jump {
    pub start: Aligned,
    pub vle: bool,
}

// What stopped a session: a password that did not pass, a length of 0, a load not wholly in SRAM, or a faulty byte, with the VLE bit of the
// header that had been accepted before it, which is clear if none had.
#[derive(Clone, Copy)]
pub enum Refusal {
    Password,
    Length,
    Range,
    FaultyByte(bool),
}

// The stages.
#[derive(Clone, Copy)]
pub enum Stage {
    Waiting,
    Password,
    Header(Port),
    Data(Port, Load),
    Stopped(Refusal),
    Jumped(Jump),
}

// A session: what the boot choice fixed for it, its stage, and the password or header bytes held so far, which are the first `count`
// of `held`. These two are no slice or type with an invariant, since C hands in any count, and one that does not fit is answered by 8
// (`Sound.sound`).
#[derive(Clone, Copy)]
pub struct Session {
    pub configuration: Configuration,
    pub held: [u8; 8],
    pub stage: Stage,
    pub count: u8,
}

// Whether a load's counts and addresses fit.
fn does_load_fit(configuration: Configuration, load: Load) -> bool
    ensures { result ≡ load_fits configuration load }
{
    1 <= load.owed
        && sram::is_in_range(configuration, load.next, load.owed)
        && sram::is_aligned(configuration, load.start)
        && load.start.0 <= load.next
}

// Whether a session's counts fit its stage.
#[tactic(auto, unfolding(crate::specs::Sound::sound))]
pub fn is_sound(session: Session) -> bool
    ensures { result ≡ sound session }
{
    let count = session.count;
    match session.stage {
        Stage::Password => 1 <= count && count <= 7,
        Stage::Header(Port::Serial) => count <= 7,
        Stage::Data(_, load) => count == 0 && does_load_fit(session.configuration, load),
        Stage::Waiting | Stage::Header(Port::Can) | Stage::Stopped(_) | Stage::Jumped(_) => {
            count == 0
        }
    }
}

// The VLE bit of the header that was accepted, clear if none was.
pub fn accepted_vle(stage: Stage) -> bool
    ensures { result ≡ accepted_vle stage }
{
    match stage {
        Stage::Data(_, load) => load.vle,
        Stage::Stopped(Refusal::FaultyByte(vle)) => vle,
        Stage::Jumped(jump) => jump.vle,
        Stage::Waiting | Stage::Password | Stage::Header(_) | Stage::Stopped(_) => false,
    }
}
