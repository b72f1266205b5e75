// Answers, and what else crosses the C interface, as bytes and numbers (include/boot_assist.h).
#![tactic(auto)]

ghost use Rattle.std.specs.Prelude.{◌≡◌};
ghost use Rattle.c_answer.specs.Writing.{bit, entered_number, entered_of, as_flat, room_for, put, jump_numbers, answer_numbers, answer_places, answer_put};

use session_answers::{Answer, Outcome};
use session_configuration::Entered;

// How many bytes an echo has, and how many numbers an answer has beside them.
pub const ECHO_WIDTH: usize = 8;

pub const ANSWER_WIDTH: usize = 5;

// A flag as 0 or 1: C's number of one, with its own definition, which a wrong program tries.
pub fn flag(is_set: bool) -> u32
    ensures { result ≡ bit is_set }
{
    u32::from(is_set)
}

// The number of how serial boot was entered. It is no `From`, nor is what reads it: `Entered` is of session_configuration, and its numbers are C's.
pub fn entered_number(entered: Entered) -> u32
    ensures { result ≡ entered_number entered }
{
    match entered {
        Entered::Directly => 2,
        Entered::FromInternal => 3,
        Entered::FromExternal => 4,
    }
}

// How serial boot was entered, by its number.
pub fn entered_of(number: u32) -> Entered
    ensures { result ≡ entered_of number }
{
    match number {
        2 => Entered::Directly,
        3 => Entered::FromInternal,
        _ => Entered::FromExternal,
    }
}

// The jump address and VLE of an outcome.
fn jump_numbers(outcome: Outcome) -> [u32; 2]
    ensures { result ≡ jump_numbers outcome }
{
    match outcome {
        Outcome::Jumps(jump) => [jump.start.0, flag(jump.vle)],
        _ => [0; 2],
    }
}

// The numbers of an answer.
fn answer_numbers(answer: Answer) -> [u32; ANSWER_WIDTH]
    ensures { result ≡ answer_numbers answer }
{
    let [start, vle] = jump_numbers(answer.outcome);
    [
        u32::from(u8::from(answer.outcome)),
        answer.echo.identifier,
        u32::from(answer.echo.length),
        start,
        vle,
    ]
}

// Whether there are places for so many bytes and numbers, and no more. Bytes and numbers stay two parameters, as C lends them
// (include/boot_assist.h): the clauses have the two as one `Flat`.
pub fn has_room<const BYTES: usize, const NUMBERS: usize>(bytes: &[u8], numbers: &[u32]) -> bool
    ensures { result ≡ room_for BYTES NUMBERS (as_flat bytes.now numbers.now) }
{
    bytes.len() == BYTES && numbers.len() == NUMBERS
}

// Writes bytes and numbers, where there are places for them.
#[tactic(auto, using(buffers::proofs::Lending::fill_whole))]
pub fn put<const BYTES: usize, const NUMBERS: usize>(
    bytes: &mut [u8],
    numbers: &mut [u32],
    given_bytes: [u8; BYTES],
    given_numbers: [u32; NUMBERS],
)
    ensures { as_flat bytes.new numbers.new
        ≡ put BYTES NUMBERS (as_flat given_bytes.entry given_numbers.entry) (as_flat bytes.old numbers.old) }
{
    if has_room::<BYTES, NUMBERS>(bytes, numbers) {
        buffers::fill(bytes, &given_bytes);
        buffers::fill(numbers, &given_numbers);
    }
}

// Whether there are places for an answer.
pub fn has_places(echo: &[u8], answer: &[u32]) -> bool
    ensures { result ≡ answer_places (as_flat echo.now answer.now) }
{
    has_room::<ECHO_WIDTH, ANSWER_WIDTH>(echo, answer)
}

// Writes an answer, where there are places for it.
pub fn put_answer(echo: &mut [u8], answer: &mut [u32], given: Answer)
    ensures { as_flat echo.new answer.new
        ≡ answer_put given (as_flat echo.old answer.old) }
{
    put(echo, answer, given.echo.bytes, answer_numbers(given));
}
