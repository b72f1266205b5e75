// What the program keeps and begins a capture with, and what a record of it does (01, "The truck's capture file"): it is read and handed to
// the session.
#![tactic(auto)]

ghost use Rattle.std.specs.Prelude.{◌≡◌};
ghost use Rattle.capture.specs.Records.{kind_number, found};
ghost use Rattle.session_answers.specs.Answers.{result_of};
ghost use Rattle.replay_record.specs.Beginning.{beginning, first_progress};
ghost use Rattle.replay_record.specs.Handling.{record_step, as_handling, handling_of};

use capture::{Damaged, Kind, Record};
use session_answers::{Outcome, StepResult};
use session_items::Item;
use session_state::Session;

// How far the program is between two windows of a capture: how much of the output is text, how many bytes of the window are unread,
// which are at its start, whether the text has ended, the ordinal of the next record, which is 1 for the first, and the session.
#[derive(Clone, Copy)]
pub struct Progress {
    pub used: usize,
    pub unread: usize,
    pub ended: bool,
    pub ordinal: u64,
    pub session: Session,
}

// How far it is before the first window.
pub fn begin() -> Progress
    ensures { result ≡ first_progress }
{
    Progress {
        used: 0,
        unread: 0,
        ended: false,
        ordinal: 1,
        session: session_fresh::reset_session(),
    }
}

// The SRAM that a capture begins with.
#[tactic(auto, unfolding(sram::specs::Region::size))]
pub fn zeroed_sram() -> [u8; 65536]
    ensures { result ≡ beginning.sram }
{
    [0; 65536]
}

// Of a record that was read its kind, where the next one starts, and the result of its step.
#[derive(Clone, Copy)]
pub struct Handled {
    pub kind: Kind,
    pub next: usize,
    pub result: StepResult,
}

// The step of a record that was read.
#[tactic(auto, unfolding(crate::specs::Handling::record_step))]
fn step_record(session: Session, sram: &mut [u8], read: Record) -> StepResult
    ensures { result_of result sram.new ≡ record_step session sram.old (kind_number read.entry.kind) read.entry.body.now }
{
    if matches!(read.kind, Kind::Reset) {
        return session_answers::take_nothing(session_fresh::reset_session(), Outcome::Taken);
    }
    // These two of `session_items` promise an answer for every number, so they keep a number.
    let kind = u8::from(read.kind);
    let from = session_items::leading_bytes(kind).min(read.body.len());
    let item = Item {
        source: session_items::source_in(kind, read.body),
        bytes: &read.body[from..],
    };
    session::hand_in(session, sram, &item)
}

// Reads the record with which the bytes begin, and hands it to the session.
#[tactic(auto, using(crate::proofs::Laws::handled_bad, crate::proofs::Laws::handled_end, crate::proofs::Laws::handled_record))]
pub fn handle(bytes: &[u8], session: Session, sram: &mut [u8]) -> Result<Option<Handled>, Damaged>
    ensures { as_handling session result sram.new ≡ handling_of session sram.old (found 0 bytes.now) }
{
    let Some(record) = capture::read(bytes, 0)? else {
        return Ok(None);
    };
    let Record { kind, next, .. } = record;
    let result = step_record(session, sram, record);
    Ok(Some(Handled { kind, next, result }))
}
