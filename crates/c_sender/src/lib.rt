// Senders, items and verdicts as bytes and numbers, as they cross the C interface (include/boot_assist.h).
#![tactic(auto)]

ghost use Rattle.std.specs.Prelude.{◌≡◌};
ghost use Rattle.c_answer.specs.Writing.{as_flat};
ghost use Rattle.c_sender.specs.Numbers.{sender_numbers, flag_of, port_for, sender_read, identifier_of, item_numbers, verdict_number};

use sender::Verdict;
use sender_load::{Sender, Sent};
use session_items::Source;
use session_state::Port;

// How many bytes and numbers a sender has, and an item.
pub const SENDER_BYTES: usize = 8;

pub const SENDER_WIDTH: usize = 7;

pub const ITEM_BYTES: usize = 8;

pub const ITEM_WIDTH: usize = 3;

// The numbers of a sender.
pub fn sender_numbers(sender: Sender) -> [u32; SENDER_WIDTH]
    ensures { result ≡ sender_numbers sender }
{
    [
        c_answer::flag(sender.going),
        c_session::port_number(sender.port),
        sender.start,
        c_answer::flag(sender.vle),
        sender.length,
        sender.place,
        c_answer::flag(sender.out),
    ]
}

// The flag of a number, and below it the port. Neither is a `From`: no type of theirs is of this crate.
pub fn flag_of(number: u32) -> bool
    ensures { result ≡ flag_of number }
{
    number != 0
}

// `c_session::read_port`, below this crate, tests the same of a session's numbers; this one is public, so it stays.
pub fn port_of(number: u32) -> Port
    ensures { result ≡ port_for number }
{
    match number {
        0 => Port::Can,
        _ => Port::Serial,
    }
}

// The sender of bytes and numbers.
pub fn read_sender(bytes: &[u8], numbers: &[u32]) -> Sender
    ensures { result ≡ sender_read (as_flat bytes.now numbers.now) }
{
    Sender {
        going: flag_of(c_session::number_at(numbers, 0)),
        configuration: sender::head_with(octets::first_eight(bytes)),
        port: port_of(c_session::number_at(numbers, 1)),
        start: c_session::number_at(numbers, 2),
        vle: flag_of(c_session::number_at(numbers, 3)),
        length: c_session::number_at(numbers, 4),
        place: c_session::number_at(numbers, 5),
        out: flag_of(c_session::number_at(numbers, 6)),
    }
}

// The identifier of an item, which only CAN has.
fn identifier_of(source: Source) -> u32
    ensures { result ≡ identifier_of source }
{
    match source {
        Source::Can(identifier) => identifier,
        Source::Serial(_) => 0,
    }
}

// The numbers of an item.
pub fn item_numbers(sent: Sent) -> [u32; ITEM_WIDTH]
    ensures { result ≡ item_numbers sent }
{
    let source = sent.source;
    [
        c_session::port_number(source.into()),
        identifier_of(source),
        u32::from(sent.length),
    ]
}

// The number of what becomes of a load. It is no `From`: `Verdict` is of `sender`, and C's number of it is stated here.
pub fn verdict_number(verdict: Verdict) -> u8
    ensures { result ≡ verdict_number verdict }
{
    match verdict {
        Verdict::GoesOn => 0,
        Verdict::Done => 1,
        Verdict::Abandoned => 2,
    }
}
