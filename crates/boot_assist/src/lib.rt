// The C interface (include/boot_assist.h): the names of the calls. Their parameters and numbers are the interface's, so they stay as they are.
#![tactic(auto)]

ghost use Rattle.std.specs.Prelude.{◌≡◌, [], ◌∷◌};
ghost use Rattle.capture.specs.Located.{as_located, located_at};
ghost use Rattle.session_items.specs.declared.Source.{Source};
ghost use Rattle.session_items.specs.Items.{Item};
ghost use Rattle.c_answer.specs.Writing.{as_flat};
ghost use Rattle.c_choice.specs.Calls.{as_choice_reply, choice_answer, as_fresh_reply, session_reply};
ghost use Rattle.c_rows.specs.Calls.{as_rows_reply, choice_rows_reply, session_rows_reply};
ghost use Rattle.c_items.specs.Calls.{as_reply, ItemClaim};
ghost use Rattle.c_list.specs.Calls.{ListClaim};
ghost use Rattle.c_load.specs.Calls.{as_begin_reply, reply_to_begin, as_ask_reply, reply_to_ask, as_tell_reply, reply_to_tell};

// The boot choice.
#[unsafe(no_mangle)]
pub extern "C" fn boot_assist_flat_choose(
    bootcfg: u32,
    flash: &[u8],
    shadow: &[u8],
    external: &[u8],
    fields: &mut [u32],
    password: &mut [u8],
) -> u8
    ensures { as_choice_reply result fields.new password.new
        ≡ choice_answer bootcfg flash.now shadow.now external.now fields.old password.old }
{
    c_choice::choose(bootcfg, flash, shadow, external, fields, password)
}

// The MMU rows of a choice.
#[unsafe(no_mangle)]
pub extern "C" fn boot_assist_flat_choice_rows(mode: u32, rows: &mut [u32]) -> u8
    ensures { as_rows_reply result rows.new ≡ choice_rows_reply mode rows.old }
{
    c_rows::choice_rows(mode, rows)
}

// The MMU rows of a session.
#[unsafe(no_mangle)]
pub extern "C" fn boot_assist_flat_session_rows(
    session_bytes: &[u8],
    session: &[u32],
    rows: &mut [u32],
) -> u8
    ensures { as_rows_reply result rows.new ≡ session_rows_reply (as_flat session_bytes.now session.now) rows.old }
{
    c_rows::session_rows(session_bytes, session, rows)
}

// A fresh session, from the mode and the password of a serial choice.
#[unsafe(no_mangle)]
pub extern "C" fn boot_assist_flat_fresh(
    mode: u32,
    password: &[u8],
    session_bytes: &mut [u8],
    session: &mut [u32],
) -> u8
    ensures { as_fresh_reply result (as_flat session_bytes.new session.new) ≡ session_reply mode password.now (as_flat session_bytes.old session.old) }
{
    c_choice::fresh(mode, password, session_bytes, session)
}

// One CAN frame.
#[unsafe(no_mangle)]
pub extern "C" fn boot_assist_flat_frame(
    session_bytes: &mut [u8],
    session: &mut [u32],
    sram: &mut [u8],
    identifier: u32,
    data: &[u8],
    echo: &mut [u8],
    answer: &mut [u32],
) -> u8
    ensures { ItemClaim (as_flat session_bytes.old session.old) sram.old (Item.Of (Source.Can identifier) «data».now) (as_flat echo.old answer.old)
        (as_reply result (as_flat session_bytes.new session.new) sram.new (as_flat echo.new answer.new)) }
{
    c_items::frame(session_bytes, session, sram, identifier, data, echo, answer)
}

// One serial byte, which is faulty where the mark is not 0.
#[unsafe(no_mangle)]
pub extern "C" fn boot_assist_flat_byte(
    session_bytes: &mut [u8],
    session: &mut [u32],
    sram: &mut [u8],
    value: u8,
    mark: u32,
    echo: &mut [u8],
    answer: &mut [u32],
) -> u8
    ensures { ItemClaim (as_flat session_bytes.old session.old) sram.old (Item.Of (Source.Serial mark) (value ∷ [])) (as_flat echo.old answer.old)
        (as_reply result (as_flat session_bytes.new session.new) sram.new (as_flat echo.new answer.new)) }
{
    c_items::byte(session_bytes, session, sram, value, mark, echo, answer)
}

// A list of items.
#[unsafe(no_mangle)]
pub extern "C" fn boot_assist_flat_list(
    session_bytes: &mut [u8],
    session: &mut [u32],
    sram: &mut [u8],
    kinds: &[u8],
    identifiers: &[u32],
    counts: &[u32],
    bytes: &[u8],
    echoes: &mut [u8],
    answers: &mut [u32],
) -> u8
    ensures { ListClaim (as_flat session_bytes.old session.old) sram.old kinds.now identifiers.now counts.now bytes.now (as_flat echoes.old answers.old)
        (as_reply result (as_flat session_bytes.new session.new) sram.new (as_flat echoes.new answers.new)) }
{
    c_list::list(
        session_bytes,
        session,
        sram,
        kinds,
        identifiers,
        counts,
        bytes,
        echoes,
        answers,
    )
}

// Begins a load.
#[unsafe(no_mangle)]
pub extern "C" fn boot_assist_flat_begin(
    port: u32,
    start: u32,
    vle: u32,
    password: &[u8],
    image: &[u8],
    sender_bytes: &mut [u8],
    sender: &mut [u32],
) -> u8
    ensures { as_begin_reply result (as_flat sender_bytes.new sender.new)
        ≡ reply_to_begin port start vle password.now image.now (as_flat sender_bytes.old sender.old) }
{
    c_load::begin(port, start, vle, password, image, sender_bytes, sender)
}

// Asks for the next item of a load.
#[unsafe(no_mangle)]
pub extern "C" fn boot_assist_flat_ask(
    sender_bytes: &mut [u8],
    sender: &mut [u32],
    image: &[u8],
    item_bytes: &mut [u8],
    item: &mut [u32],
) -> u8
    ensures { as_ask_reply result (as_flat sender_bytes.new sender.new) (as_flat item_bytes.new item.new)
        ≡ reply_to_ask (as_flat sender_bytes.old sender.old) image.now (as_flat item_bytes.old item.old) }
{
    c_load::ask(sender_bytes, sender, image, item_bytes, item)
}

// Tells a sender what was heard.
#[unsafe(no_mangle)]
pub extern "C" fn boot_assist_flat_tell(
    sender_bytes: &mut [u8],
    sender: &mut [u32],
    image: &[u8],
    port: u32,
    identifier: u32,
    bytes: &[u8],
    verdict: &mut u8,
) -> u8
    ensures { as_tell_reply result (as_flat sender_bytes.new sender.new) verdict.new
        ≡ reply_to_tell (as_flat sender_bytes.old sender.old) image.now port identifier bytes.now verdict.old }
{
    c_load::tell(
        sender_bytes,
        sender,
        image,
        port,
        identifier,
        bytes,
        verdict,
    )
}

// The record at a place of a capture.
#[unsafe(no_mangle)]
pub extern "C" fn boot_assist_flat_read(capture: &[u8], at: usize, fields: &mut [usize]) -> u8
    ensures { as_located result fields.new ≡ located_at capture.now at fields.old }
{
    capture::locate(capture, at, fields)
}
