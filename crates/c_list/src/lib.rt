// The call for a list of items on bytes, numbers and lent memory, as the C interface has it (include/boot_assist.h), with the promise of
// demand 3 (00) about the whole list. The number that is returned is C's.
#![tactic(auto)]

ghost use Rattle.std.specs.Prelude.{◌≡◌, ◌+◌, ◌*◌, ◌≤◌, true, length};
ghost use Rattle.session_answers.specs.declared.Fault.{Fault};
ghost use Rattle.session_answers.specs.declared.Outcome.{Outcome};
ghost use Rattle.session_answers.specs.Answers.{precheck, without_echo};
ghost use Rattle.session.specs.Rules.{step};
ghost use Rattle.session.specs.Running.{ran};
ghost use Rattle.c_answer.specs.Writing.{as_flat, echo_width, answer_width};
ghost use Rattle.c_session.specs.Reading.{session_in};
ghost use Rattle.c_items.specs.Calls.{as_reply};
ghost use Rattle.c_list.specs.Calls.{items_of, parts_fit, list_fits, answer_at, Handed, list_ran, ListClaim};

use c_answer::{ANSWER_WIDTH, ECHO_WIDTH};
use session_answers::{Fault, Outcome};

// The items of a list as C hands them in, by `boot_assist_flat_list`: lists of kinds, identifiers and counts beside each other, and the bytes of all.
#[derive(Clone, Copy)]
struct Items<'a> {
    kinds: &'a [u8],
    identifiers: &'a [u32],
    counts: &'a [u32],
    bytes: &'a [u8],
}

impl Items<'_> {
    // Whether each kind and count is an item's, and the counts add up to the bytes.
    #[tactic(auto, unfolding(crate::specs::Calls::parts_fit))]
    fn parts_fit(&self) -> bool
        requires { length self.now.counts.now ≡ length self.now.kinds.now }
        ensures { result ≡ parts_fit self.now.kinds.now self.now.counts.now (length self.now.bytes.now) }
    {
        let mut left = self.bytes.len();
        for (kind, count) in self.kinds.iter().zip(self.counts) {
            if !session_items::is_item(*kind, *count) || left < *count as usize {
                return false;
            }
            left -= *count as usize;
        }
        left == 0
    }

    // Whether the lists fit each other, and so many places for echoes and for numbers of answers.
    fn fit(&self, echoes: usize, answers: usize) -> bool
        ensures { result ≡ list_fits self.now.kinds.now self.now.identifiers.now self.now.counts.now (length self.now.bytes.now) echoes answers }
    {
        let many = self.kinds.len();
        self.identifiers.len() == many
            && self.counts.len() == many
            && many.checked_mul(ECHO_WIDTH) == Some(echoes)
            && many.checked_mul(ANSWER_WIDTH) == Some(answers)
            && self.parts_fit()
    }
}

// Hands in item i, and writes its answer at its place, also where it is refused for its form. Session, SRAM and answers are a parameter each,
// as C lends them: a struct of them would be made here and taken apart in `c_items::item`.
fn hand_in_at(
    session_bytes: &mut [u8],
    session: &mut [u32],
    sram: &mut [u8],
    item: &session_items::Item<'_>,
    echoes: &mut [u8],
    answers: &mut [u32],
    i: usize,
)
    requires { (precheck (session_in (as_flat session_bytes.old session.old)) sram.old true ≡ Ok tt)
        × (echo_width * i + echo_width ≤ length echoes.old)
        × (answer_width * i + answer_width ≤ length answers.old) }
    ensures { Handed (step (session_in (as_flat session_bytes.old session.old)) sram.old item.now) i (as_flat echoes.old answers.old)
        (session_in (as_flat session_bytes.new session.new)) sram.new (as_flat echoes.new answers.new) }
{
    let from = ECHO_WIDTH * i;
    let at = ANSWER_WIDTH * i;
    let echo = &mut echoes[from..from + ECHO_WIDTH];
    let answer = &mut answers[at..at + ANSWER_WIDTH];
    let number = c_items::item(session_bytes, session, sram, item, echo, answer); // a number, by `c_items: Calls.ItemClaim`
    if number == u8::from(Fault::Form) {
        let refused = session_answers::without_echo(Outcome::Refused(Fault::Form));
        c_answer::put_answer(echo, answer, refused);
    }
}

// Hands in the items of lists that fit, one after another. They are counted, since the places of an item's answer go by its number.
fn run_items(
    session_bytes: &mut [u8],
    session: &mut [u32],
    sram: &mut [u8],
    items: &Items<'_>,
    echoes: &mut [u8],
    answers: &mut [u32],
)
    requires { precheck (session_in (as_flat session_bytes.old session.old)) sram.old
        (list_fits items.now.kinds.now items.now.identifiers.now items.now.counts.now (length items.now.bytes.now) (length echoes.old) (length answers.old))
        ≡ Ok tt }
    ensures { as_reply 0 (as_flat session_bytes.new session.new) sram.new (as_flat echoes.new answers.new)
        ≡ list_ran (ran (session_in (as_flat session_bytes.old session.old)) sram.old
        (items_of items.now.kinds.now items.now.identifiers.now items.now.counts.now items.now.bytes.now)) }
{
    let Items {
        kinds,
        identifiers,
        counts,
        bytes,
    } = *items;
    let mut rest = bytes;
    for i in 0..kinds.len() {
        let (own, behind) = rest.split_at(counts[i] as usize);
        let item = session_items::Item {
            source: session_items::source_of(kinds[i], identifiers[i]),
            bytes: own,
        };
        hand_in_at(session_bytes, session, sram, &item, echoes, answers, i);
        rest = behind;
    }
}

// A list of items.
pub fn list(
    session_bytes: &mut [u8],
    session: &mut [u32],
    sram: &mut [u8],
    kinds: &[u8],
    identifiers: &[u32],
    counts: &[u32],
    bytes: &[u8],
    echoes: &mut [u8],
    answers: &mut [u32],
) -> u8
    ensures { ListClaim (as_flat session_bytes.old session.old) sram.old kinds.now identifiers.now counts.now bytes.now (as_flat echoes.old answers.old)
        (as_reply result (as_flat session_bytes.new session.new) sram.new (as_flat echoes.new answers.new)) }
{
    let items = Items {
        kinds,
        identifiers,
        counts,
        bytes,
    };
    let formed = items.fit(echoes.len(), answers.len());
    let read = c_session::read_session(session_bytes, session);
    if let Err(due) = c_items::item_precheck(read, sram, formed, true) {
        return u8::from(due);
    }
    run_items(session_bytes, session, sram, &items, echoes, answers);
    0
}
