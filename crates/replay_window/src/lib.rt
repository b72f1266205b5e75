// The text for a window of a capture (01, "The truck's capture file"): each record is handled and its line is printed, and what is left
// of the window is moved to its start.
#![tactic(auto)]

ghost use Rattle.std.specs.Prelude.{◌≡◌, true, ◌+◌, ◌-◌, ◌≤◌, ◌<◌, length, take};
ghost use Rattle.capture.specs.Records.{found};
ghost use Rattle.replay_lines.specs.Lines.{last_line};
ghost use Rattle.replay_lines.specs.Output.{as_output, appended};
ghost use Rattle.replay_record.specs.Beginning.{keeping};
ghost use Rattle.replay_record.specs.Handling.{handling_of};
ghost use Rattle.replay_window.specs.Printing.{echo_bytes, printing_after};
ghost use Rattle.replay_window.specs.Windows.{ready_in, played_in, as_call_result, result_after, Continues, on_window, as_window_result, after_window};
ghost use Rattle.replay_window.specs.Turns.{as_printed, printed_at, printing_result, moved_on};

use capture::Damaged;
use replay_record::{Handled, Progress};
use session_answers::Echo;
use session_state::{Session, Stage};

// How far a call is, which the program's `Progress` has in its own fields, as the definitions of both do: the next position in the window, how much of the output is used, whether the text has ended, and the ordinal of
// the next record.
#[derive(Clone, Copy)]
pub struct Turn {
    pub at: usize,
    pub used: usize,
    pub ended: bool,
    pub ordinal: u64,
}

// What a call returns: how far it is, and the session.
#[derive(Clone, Copy)]
pub struct Played {
    pub turn: Turn,
    pub session: Session,
}

// The bytes of an echo, at most eight.
fn echo_bytes(echo: &Echo) -> &[u8]
    ensures value { result.now ≡ echo_bytes echo.now }
    ensures short { take 8 (echo_bytes echo.now) ≡ echo_bytes echo.now }
{
    let shown = usize::from(echo.length).min(8);
    &echo.bytes[..shown]
}

// Prints the last line.
fn end_text(out: &mut [u8], turn: Turn, stage: Stage) -> Turn
    ensures { as_printed result out.new ≡ printed_at turn.at true turn.ordinal (appended (as_output out.old turn.used) (last_line stage)) }
{
    Turn {
        used: replay_lines::last_line(out, turn.used, stage),
        ended: true,
        ..turn
    }
}

// Handles the record with which the bytes begin, and prints its line: of a bad one, and of the end mark, the last line.
fn play_record(bytes: &[u8], before: Played, sram: &mut [u8], out: &mut [u8]) -> Played
    requires ordinal { before.turn.ordinal < 0xFFFF_FFFF_FFFF_FFFF }
    requires room { before.turn.used + 96 ≤ length out.old }
    requires place { before.turn.at + length bytes.now < 0x1_0000_0000_0000_0000 }
    ensures played { as_call_result result sram.new out.new
        ≡ moved_on before.turn.at (printing_result (printing_after before.turn.ordinal (handling_of before.session sram.old (found 0 bytes.now))) (as_output out.old before.turn.used)) }
    ensures short { length (printing_after before.turn.ordinal (handling_of before.session sram.old (found 0 bytes.now))).text ≤ 96 }
{
    let Played { turn, session } = before;
    match replay_record::handle(bytes, session, sram) {
        Ok(Some(Handled { next, result, .. })) => {
            let answer = result.answer;
            let number = u8::from(answer.outcome);
            let echo = echo_bytes(&answer.echo);
            let turn = Turn {
                at: turn.at + next,
                used: replay_lines::record_line(out, turn.used, turn.ordinal, number, echo),
                ended: false,
                ordinal: turn.ordinal + 1,
            };
            Played {
                turn,
                session: result.session,
            }
        }
        Ok(None) => Played {
            turn: end_text(out, turn, session.stage),
            session,
        },
        Err(Damaged) => {
            let used = replay_lines::record_line(out, turn.used, turn.ordinal, 10, &[]);
            Played {
                turn: end_text(out, Turn { used, ..turn }, session.stage),
                session,
            }
        }
    }
}

// Whether the next record of the window can be read and printed.
fn is_ready(window: &[u8], last: bool, turn: Turn, room: usize) -> bool
    ensures { result ≡ ready_in (length window.now - turn.at) last (room - turn.used) turn.ended turn.ordinal }
{
    let unread = window.len().saturating_sub(turn.at);
    let free = room.saturating_sub(turn.used);
    !turn.ended && (last || 14 <= unread) && 96 <= free && turn.ordinal < u64::MAX
}

// The records of a window, from its start on, as long as the next one can be read and printed. The window is a part of the
// capture, and `last` is whether the capture ends with it. The text is written at the start of the output.
// The parameters stay apart: `play_window` lends its window mutably and keeps the others in its `Progress`, so a struct would only be taken apart.
pub fn play(
    window: &[u8],
    last: bool,
    ordinal: u64,
    session: Session,
    sram: &mut [u8],
    out: &mut [u8],
) -> Played
    ensures played { as_call_result result sram.new out.new
        ≡ result_after (played_in window.now last (length out.old) (keeping ordinal session sram.old)) out.old }
    ensures continues { Continues window.now last (keeping ordinal session sram.old) (as_call_result result sram.new out.new) }
{
    let turn = Turn {
        at: 0,
        used: 0,
        ended: false,
        ordinal,
    };
    let mut played = Played { turn, session };
    while is_ready(window, last, played.turn, out.len()) {
        played = play_record(&window[played.turn.at..], played, sram, out);
    }
    played
}

// Plays what can be played of a window, with its text at the start of the output, and moves what is unread to the window's start.
pub fn play_window(
    window: &mut [u8],
    last: bool,
    progress: Progress,
    sram: &mut [u8],
    out: &mut [u8],
) -> Progress
    ensures { as_window_result result window.new sram.new out.new
        ≡ after_window (on_window window.old last (length out.old) (keeping progress.ordinal progress.session sram.old)) window.old out.old }
{
    let played = play(window, last, progress.ordinal, progress.session, sram, out);
    let turn = played.turn;
    Progress {
        used: turn.used,
        unread: buffers::slide(window, turn.at),
        ended: turn.ended,
        ordinal: turn.ordinal,
        session: played.session,
    }
}
