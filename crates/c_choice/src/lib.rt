// The boot choice, and the session that it gives, on bytes, numbers and lent outputs, as the C interface has them (include/boot_assist.h):
// the numbers that are returned are C's.
#![tactic(auto)]

ghost use Rattle.std.specs.Prelude.{◌≡◌, length};
ghost use Rattle.c_answer.specs.Writing.{as_flat};
ghost use Rattle.c_choice.specs.Numbers.{mode_number, mode_of, boot_numbers};
ghost use Rattle.c_choice.specs.Calls.{as_choice_reply, choice_leaves, choice_answer, as_fresh_reply, session_reply};

use boot::{Boot, Choice, Inputs, Mode};

// The number of a way to boot, which `mode_of` reads as that way.
// No From: the orphan rule lets only the crate of Mode have one, and the numbers are the C interface's.
fn mode_number(mode: Mode) -> u32
    ensures { (result ≡ mode_number mode) × (mode_of result ≡ mode) }
{
    match mode {
        Mode::Internal => 0,
        Mode::External => 1,
        Mode::Serial(entered) => c_answer::entered_number(entered),
    }
}

// The way to boot of a number. Nor is this a From.
pub fn mode_of(number: u32) -> Mode
    ensures { result ≡ mode_of number }
{
    match number {
        0 => Mode::Internal,
        1 => Mode::External,
        _ => Mode::Serial(c_answer::entered_of(number)),
    }
}

// The numbers of a choice.
fn boot_numbers(boot: Boot) -> [u32; 8]
    ensures { result ≡ boot_numbers boot }
{
    [
        mode_number(boot.mode),
        boot.place,
        u32::from(boot.examined),
        boot.jump,
        c_answer::flag(boot.watchdog),
        c_answer::flag(boot.bus16),
        c_answer::flag(boot.flash),
        c_answer::flag(boot.nexus),
    ]
}

// Writes a choice: its numbers and the password selected.
#[tactic(auto, using(buffers::proofs::Lending::fill_whole))]
fn put_choice(fields: &mut [u32], password: &mut [u8], choice: Choice)
    requires { (length fields.old ≡ 8) × (length password.old ≡ 8) }
    ensures { as_choice_reply 0 fields.new password.new ≡ choice_leaves (Some choice) fields.old password.old }
{
    buffers::fill(fields, &boot_numbers(choice.boot));
    buffers::fill(password, &choice.password);
}

// The boot choice: writes its 8 numbers and the 8 bytes of the password selected, and returns number 0; or returns number 9.
#[tactic(auto, unfolding(crate::specs::Calls::choice_answer))]
pub fn choose(
    bootcfg: u32,
    flash: &[u8],
    shadow: &[u8],
    external: &[u8],
    fields: &mut [u32],
    password: &mut [u8],
) -> u8
    ensures { as_choice_reply result fields.new password.new
        ≡ choice_answer bootcfg flash.now shadow.now external.now fields.old password.old }
{
    if fields.len() != 8 || password.len() != 8 {
        return 9;
    }
    let inputs = Inputs {
        bootcfg,
        flash,
        shadow,
        external,
    };
    let Some(choice) = inputs.choose() else {
        return 9; // nothing is written
    };
    put_choice(fields, password, choice);
    0
}

// A fresh session, from the number of a way to boot and the password selected.
#[tactic(auto, unfolding(crate::specs::Calls::session_reply, c_session::specs::Writing::session_put))]
pub fn fresh(mode: u32, password: &[u8], session_bytes: &mut [u8], session: &mut [u32]) -> u8
    ensures { as_fresh_reply result (as_flat session_bytes.new session.new)
        ≡ session_reply mode password.now (as_flat session_bytes.old session.old) }
{
    if 4 < mode || password.len() != 8 || !c_session::has_places(session_bytes, session) {
        return 9;
    }
    let Some(fresh) = session_fresh::fresh_in(mode_of(mode), octets::first_eight(password)) else {
        return 9;
    };
    c_session::put_session(session_bytes, session, fresh);
    0
}
