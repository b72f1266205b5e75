// The calls of a sender on bytes, numbers and lent outputs, as the C interface has them (include/boot_assist.h): the
// numbers that are returned and taken are C's.
#![tactic(auto)]

ghost use Rattle.std.specs.Prelude.{◌≡◌, true};
ghost use Rattle.c_answer.specs.Writing.{as_flat};
ghost use Rattle.c_sender.specs.Numbers.{sender_places, SenderEncoding};
ghost use Rattle.c_load.specs.Calls.{as_begin_reply, reply_to_begin, as_ask_reply, reply_to_ask, as_tell_reply, reply_to_tell};

use c_sender::{ITEM_BYTES, ITEM_WIDTH, SENDER_BYTES, SENDER_WIDTH};
use sender_echo::Heard;
use sender_load::Sender;

// Writes a sender in its places.
#[tactic(auto, using(c_sender::proofs::Back::sender_encoding))]
fn put_sender(bytes: &mut [u8], numbers: &mut [u32], sender: Sender)
    requires { sender_places (as_flat bytes.old numbers.old) ≡ true }
    ensures { SenderEncoding sender (as_flat bytes.new numbers.new) }
{
    c_answer::put(
        bytes,
        numbers,
        sender.configuration.password,
        c_sender::sender_numbers(sender),
    );
}

// Begins a load.
#[tactic(auto, unfolding(crate::specs::Calls::reply_to_begin))]
pub fn begin(
    port: u32,
    start: u32,
    vle: u32,
    password: &[u8],
    image: &[u8],
    sender_bytes: &mut [u8],
    sender: &mut [u32],
) -> u8
    ensures { as_begin_reply result (as_flat sender_bytes.new sender.new)
        ≡ reply_to_begin port start vle password.now image.now (as_flat sender_bytes.old sender.old) }
{
    if !c_answer::has_room::<SENDER_BYTES, SENDER_WIDTH>(sender_bytes, sender) {
        return 9;
    }
    if port > 1 || password.len() != 8 {
        put_sender(sender_bytes, sender, sender::no_load());
        return 9;
    }
    let begun = sender::begin(
        c_sender::port_of(port),
        start,
        c_sender::flag_of(vle),
        octets::first_eight(password),
        image,
    );
    put_sender(sender_bytes, sender, sender::left_by(begun));
    sender::begun_number(begun)
}

// Asks for the next item.
#[tactic(auto, unfolding(crate::specs::Calls::reply_to_ask))]
pub fn ask(
    sender_bytes: &mut [u8],
    sender: &mut [u32],
    image: &[u8],
    item_bytes: &mut [u8],
    item: &mut [u32],
) -> u8
    ensures { as_ask_reply result (as_flat sender_bytes.new sender.new) (as_flat item_bytes.new item.new)
        ≡ reply_to_ask (as_flat sender_bytes.old sender.old) image.now (as_flat item_bytes.old item.old) }
{
    if !c_answer::has_room::<SENDER_BYTES, SENDER_WIDTH>(sender_bytes, sender) {
        return 8;
    }
    let mut next = c_sender::read_sender(sender_bytes, sender);
    let asked = sender::ask(&mut next, image);
    if let Ok(sent) = asked {
        if !c_answer::has_room::<ITEM_BYTES, ITEM_WIDTH>(item_bytes, item) {
            return 9;
        }
        put_sender(sender_bytes, sender, next);
        c_answer::put(item_bytes, item, sent.bytes, c_sender::item_numbers(sent));
    }
    sender::answer_number(asked)
}

// Tells what was heard.
#[tactic(auto, unfolding(crate::specs::Calls::reply_to_tell))]
pub fn tell(
    sender_bytes: &mut [u8],
    sender: &mut [u32],
    image: &[u8],
    port: u32,
    identifier: u32,
    bytes: &[u8],
    verdict: &mut u8,
) -> u8
    ensures { as_tell_reply result (as_flat sender_bytes.new sender.new) verdict.new
        ≡ reply_to_tell (as_flat sender_bytes.old sender.old) image.now port identifier bytes.now verdict.old }
{
    if !c_answer::has_room::<SENDER_BYTES, SENDER_WIDTH>(sender_bytes, sender) {
        return 8;
    }
    let heard = Heard {
        port: c_sender::port_of(port),
        identifier,
        bytes,
    };
    let mut next = c_sender::read_sender(sender_bytes, sender);
    let told = sender::tell(&mut next, image, heard);
    if let Ok(says) = told {
        if port > 1 {
            return 9;
        }
        put_sender(sender_bytes, sender, next);
        *verdict = c_sender::verdict_number(says);
    }
    sender::answer_number(told)
}
