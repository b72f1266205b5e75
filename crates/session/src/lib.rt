// What an item does to a session and to SRAM (01, "A serial session"; 02, E2). SRAM is lent beside the session, which goes by value, so that a clause
// gives SRAM its old and new bytes.
#![tactic(auto)]

ghost use Rattle.std.specs.Prelude.{◌≡◌, ◌+◌, ◌≤◌, true, false, eqb, length};
ghost use Rattle.buffers.specs.Write.{over};
ghost use Rattle.sram.specs.Region.{right_size};
ghost use Rattle.header.specs.Reading.{header_read, validated};
ghost use Rattle.session_answers.specs.Answers.{result_of};
ghost use Rattle.session.specs.Rules.{received, enters, holds, stops, checked, begun, loaded, transition, sram_after, taken_as, stopped_by_faulty_byte, step};
ghost use Rattle.session.specs.Room.{LoadRoom, Room};
ghost use Rattle.session.specs.OneFact.{Room-prop};

use session_answers::{Answer, Outcome, StepResult};
use session_items::{Item, Reaction, Role};
use session_state::{Jump, Load, Port, Refusal, Session, Stage};

// What the bytes taken do: the outcome, and the session after them.
#[derive(Clone, Copy)]
pub struct Transition {
    pub outcome: Outcome,
    pub session: Session,
}

// A stage that holds no password or header bytes.
fn enter(session: Session, stage: Stage, outcome: Outcome) -> Transition
    ensures { result ≡ enters session stage outcome }
{
    let session = Session {
        stage,
        held: [0; 8],
        count: 0,
        ..session
    };
    Transition { outcome, session }
}

// A refusal stops the session.
fn stop(session: Session, refusal: Refusal) -> Transition
    ensures { result ≡ stops session refusal }
{
    enter(session, Stage::Stopped(refusal), Outcome::Stops(refusal))
}

// The 8 password bytes.
#[tactic(auto, unfolding(crate::specs::Rules::checked))]
fn check_password(session: Session, port: Port, bytes: [u8; 8]) -> Transition
    ensures { result ≡ checked session port bytes }
{
    if !password::check(bytes, session.configuration.password) {
        return stop(session, Refusal::Password);
    }
    enter(session, Stage::Header(port), Outcome::Taken)
}

// The 8 header bytes.
fn begin_load(session: Session, port: Port, bytes: [u8; 8]) -> Transition
    ensures { result ≡ begun session port (validated session.configuration (header_read session.configuration bytes)) }
{
    match header::validate(session.configuration, bytes) {
        Err(refusal) => stop(session, refusal),
        Ok(header) => {
            let load = Load {
                start: header.start,
                vle: header.vle,
                next: header.start.0,
                owed: header.length,
            };
            enter(session, Stage::Data(port, load), Outcome::Taken)
        }
    }
}

// Bytes of a load.
#[tactic(auto, unfolding(crate::specs::Rules::loaded))]
fn advance(session: Session, port: Port, load: Load, bytes: &[u8]) -> Transition
    requires { LoadRoom session.configuration load (length bytes.now) }
    ensures { result ≡ loaded session port load bytes.now }
{
    let count = bytes.len() as u32;
    let owed = load.owed - count;
    if owed < 1 {
        let jump = Jump {
            start: load.start,
            vle: load.vle,
        };
        return enter(session, Stage::Jumped(jump), Outcome::Jumps(jump));
    }
    let rest = Load {
        next: load.next + count,
        owed,
        ..load
    };
    enter(session, Stage::Data(port, rest), Outcome::Taken)
}

// The bytes held with more behind them.
#[tactic(auto, using(crate::proofs::Holding::held_back))]
fn gather(session: Session, bytes: &[u8]) -> [u8; 8]
    requires { session.count + length bytes.now ≤ 8 }
    ensures { result ≡ over (received session bytes.now) session.held }
{
    let mut held = session.held;
    let count = session.count as usize;
    buffers::fill(&mut held[count..], bytes);
    held
}

// Password or header bytes: once there are 8 they are complete, and until then a stage holds them.
fn receive_eight<F: FnOnce(Session, Port, [u8; 8]) -> Transition>(
    session: Session,
    port: Port,
    stage: Stage,
    bytes: &[u8],
    complete: F,
) -> Transition
    requires room { session.count + length bytes.now ≤ 8 }
    requires completes { F.IsAlwaysCallable complete }
    ensures held { eqb (length (received session bytes.now)) 8 ≡ false → result ≡ holds session stage (received session bytes.now) }
    ensures complete { eqb (length (received session bytes.now)) 8 ≡ true → F.post complete session port (received session bytes.now) result }
{
    let held = gather(session, bytes);
    let count = session.count as usize + bytes.len();
    if count == 8 {
        return complete(session, port, held);
    }
    let session = Session {
        stage,
        held,
        count: count as u8,
        ..session
    };
    Transition {
        outcome: Outcome::Taken,
        session,
    }
}

// What a session takes: the bytes of an item in a role by a port. There are no more than eight, and they have their place.
#[derive(Clone, Copy)]
struct Taking<'a> {
    session: Session,
    role: Role,
    port: Port,
    bytes: &'a [u8],
    ghost few: { length bytes.now ≤ 8 },
    ghost room: { Room role session (length bytes.now) } by { Room-prop role session (length bytes.now) },
}

impl Taking<'_> {
    // The bytes move the session on.
    #[tactic(auto, unfolding(crate::specs::Rules::transition, crate::specs::Rules::password_received, crate::specs::Rules::header_received))]
    fn receive(&self) -> Transition
        ensures { result ≡ transition self.now.role self.now.session self.now.port self.now.bytes.now }
    {
        let Taking {
            session,
            role,
            port,
            bytes,
        } = *self;
        match role {
            Role::Password => receive_eight(session, port, Stage::Password, bytes, check_password),
            Role::Header => receive_eight(session, port, Stage::Header(port), bytes, begin_load),
            Role::Data(load) => advance(session, port, load, bytes),
        }
    }

    // The bytes of a load are stored.
    #[tactic(auto, unfolding(crate::specs::Rules::sram_after))]
    fn store_data(&self, sram: &mut [u8])
        requires { right_size self.now.session.configuration sram.old ≡ true }
        ensures { sram.new ≡ sram_after self.now.role self.now.session sram.old self.now.bytes.now }
    {
        if let Role::Data(load) = self.role {
            sram::store(self.session.configuration, sram, load.next, self.bytes);
        }
    }

    // The bytes are stored where they are data, the session moves on, and they are echoed.
    #[tactic(auto, unfolding(crate::specs::Rules::taken_as))]
    fn take(&self, sram: &mut [u8]) -> StepResult
        requires { right_size self.now.session.configuration sram.old ≡ true }
        ensures { result_of result sram.new ≡ taken_as self.now.role self.now.port self.now.session sram.old self.now.bytes.now }
    {
        self.store_data(sram);
        let next = self.receive();
        let outcome = next.outcome;
        StepResult {
            answer: Answer {
                outcome,
                echo: session_answers::echo_of(self.role, self.port, self.bytes),
            },
            session: next.session,
        }
    }
}

// A faulty byte behind the opening.
fn stop_by_faulty_byte(session: Session) -> StepResult
    ensures { result ≡ stopped_by_faulty_byte session }
{
    let refusal = Refusal::FaultyByte(session_state::accepted_vle(session.stage));
    let stopped = stop(session, refusal);
    session_answers::take_nothing(stopped.session, stopped.outcome)
}

// One item.
#[tactic(auto, unfolding(crate::specs::Rules::step), using(crate::proofs::Laws::ready))]
pub fn hand_in(session: Session, sram: &mut [u8], item: &Item<'_>) -> StepResult
    ensures { result_of result sram.new ≡ step session sram.old item.now }
{
    if let Err(fault) = session_answers::precheck(session, sram, item.is_formed()) {
        return session_answers::take_nothing(session, Outcome::Refused(fault));
    }
    match item.react(session.stage) {
        Reaction::Ignores => session_answers::take_nothing(session, Outcome::Ignored),
        Reaction::Takes(role, port) => {
            let taking = Taking {
                session,
                role,
                port,
                bytes: item.bytes,
            };
            taking.take(sram)
        }
        Reaction::Stops => stop_by_faulty_byte(session),
    }
}
