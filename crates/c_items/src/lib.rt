// The calls for an item on bytes, numbers and lent memory, as the C interface has them (include/boot_assist.h): the
// numbers that are returned are C's.
#![tactic(auto)]

ghost use Rattle.std.specs.Prelude.{◌≡◌, [], ◌∷◌};
ghost use Rattle.session_items.specs.declared.Source.{Source};
ghost use Rattle.session_items.specs.Items.{Item};
ghost use Rattle.c_answer.specs.Writing.{as_flat};
ghost use Rattle.c_items.specs.Calls.{as_reply, due_number, number_or_none, item_precheck, ItemClaim};

use session_answers::{Fault, Outcome};
use session_items::Source;
use session_state::Session;

// Why a call for an item or a list of them is refused: for what is handed in, or for an answer that has not its places.
#[derive(Clone, Copy)]
pub enum Due {
    Fault(Fault),
    Places,
}

impl From<Fault> for Due {
    ghost use Rattle.std.specs.Prelude.{◌≡◌};
    ghost use Rattle.c_items.specs.declared.Due.{Due};

    ghost from_gives = { λ fault due. due ≡ Due.Fault fault };

    fn from(reason: Fault) -> Due {
        Due::Fault(reason)
    }
}

// The number that C is given.
impl From<Due> for u8 {
    ghost from_gives = { λ due number. number ≡ due_number due };

    fn from(due: Due) -> u8 {
        match due {
            Due::Fault(fault) => fault.into(),
            Due::Places => 9,
        }
    }
}

// What comes before an item or a list of them: 7, then 8, then 6, then 9 for an answer that has not its places. Both
// calls know whether it has: the flag is the definition's.
#[tactic(auto, unfolding(crate::specs::Calls::item_precheck))]
pub fn item_precheck(session: Session, sram: &[u8], formed: bool, placed: bool) -> Result<(), Due>
    ensures { number_or_none result ≡ item_precheck session sram.now formed placed }
{
    session_answers::precheck(session, sram, formed)?;
    if !placed {
        return Err(Due::Places);
    }
    Ok(())
}

// One item. Session, SRAM and answer are a parameter each, as C lends them: a struct of them would be made in each call and taken apart here.
pub fn item(
    session_bytes: &mut [u8],
    session: &mut [u32],
    sram: &mut [u8],
    item: &session_items::Item<'_>,
    echo: &mut [u8],
    answer: &mut [u32],
) -> u8
    ensures { ItemClaim (as_flat session_bytes.old session.old) sram.old item.now (as_flat echo.old answer.old)
        (as_reply result (as_flat session_bytes.new session.new) sram.new (as_flat echo.new answer.new)) }
{
    let read = c_session::read_session(session_bytes, session);
    if !c_answer::has_places(echo, answer) {
        return match item_precheck(read, sram, item.is_formed(), false) {
            Ok(()) => 0,
            Err(due) => due.into(),
        };
    }
    let result = session::hand_in(read, sram, item);
    let given = result.answer;
    if let Outcome::Refused(fault) = given.outcome {
        return fault.into();
    }
    c_session::put_session(session_bytes, session, result.session);
    c_answer::put_answer(echo, answer, given);
    given.outcome.into()
}

// One CAN frame.
pub fn frame(
    session_bytes: &mut [u8],
    session: &mut [u32],
    sram: &mut [u8],
    identifier: u32,
    data: &[u8],
    echo: &mut [u8],
    answer: &mut [u32],
) -> u8
    ensures { ItemClaim (as_flat session_bytes.old session.old) sram.old (Item.Of (Source.Can identifier) «data».now) (as_flat echo.old answer.old)
        (as_reply result (as_flat session_bytes.new session.new) sram.new (as_flat echo.new answer.new)) }
{
    let frame = session_items::Item {
        source: Source::Can(identifier),
        bytes: data,
    };
    item(session_bytes, session, sram, &frame, echo, answer)
}

// One serial byte, which is faulty where the mark is not 0.
pub fn byte(
    session_bytes: &mut [u8],
    session: &mut [u32],
    sram: &mut [u8],
    value: u8,
    mark: u32,
    echo: &mut [u8],
    answer: &mut [u32],
) -> u8
    ensures { ItemClaim (as_flat session_bytes.old session.old) sram.old (Item.Of (Source.Serial mark) (value ∷ [])) (as_flat echo.old answer.old)
        (as_reply result (as_flat session_bytes.new session.new) sram.new (as_flat echo.new answer.new)) }
{
    let bytes = [value];
    let byte = session_items::Item {
        source: Source::Serial(mark),
        bytes: &bytes[..],
    };
    item(session_bytes, session, sram, &byte, echo, answer)
}
