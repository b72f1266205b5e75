// The MMU rows of a choice and of a session on bytes, numbers and a lent output, as the C interface has them (include/boot_assist.h): the
// numbers that are returned are C's.
#![tactic(auto)]

ghost use Rattle.std.specs.Prelude.{◌≡◌, length};
ghost use Rattle.c_answer.specs.Writing.{as_flat};
ghost use Rattle.c_rows.specs.Numbers.{row_numbers, table_numbers};
ghost use Rattle.c_rows.specs.Calls.{as_rows_reply, rows_leave, choice_rows_reply, session_rows_reply};

use mmu::{NoRows, Row};

// The numbers of a row.
fn row_numbers(row: Row) -> [u32; 8]
    ensures { result ≡ row_numbers row }
{
    [
        row.logical,
        row.physical,
        row.size,
        c_answer::flag(row.inhibited),
        c_answer::flag(row.guarded),
        c_answer::flag(row.bigendian),
        c_answer::flag(row.global),
        c_answer::flag(row.vle),
    ]
}

// Writes the numbers of five rows.
fn put_rows(out: &mut [u32], rows: [Row; 5])
    requires { length out.old ≡ 40 }
    ensures { out.new ≡ table_numbers rows }
{
    for (i, row) in rows.iter().enumerate() {
        buffers::fill(&mut out[8 * i..], &row_numbers(*row));
    }
}

// Writes the rows, where they are not refused and the output has its length, and returns the number that C gets.
fn put_mapping(rows: &mut [u32], mapping: Result<[Row; 5], NoRows>) -> u8
    ensures { as_rows_reply result rows.new ≡ rows_leave mapping rows.old }
{
    let found = match mapping {
        Ok(found) => found,
        Err(reason) => return u8::from(reason),
    };
    if rows.len() == 40 {
        put_rows(rows, found);
        return 0;
    }
    9
}

// The rows of a choice: writes 5 rows of 8 numbers and returns number 0; or returns number 11 or 9.
#[tactic(auto, unfolding(crate::specs::Calls::choice_rows_reply))]
pub fn choice_rows(mode: u32, rows: &mut [u32]) -> u8
    ensures { as_rows_reply result rows.new ≡ choice_rows_reply mode rows.old }
{
    if mode <= 4 {
        return put_mapping(rows, mmu::choice_rows(c_choice::mode_of(mode)));
    }
    9
}

// The rows of a session: the same, or returns number 8, 11 or 9.
pub fn session_rows(session_bytes: &[u8], session: &[u32], rows: &mut [u32]) -> u8
    ensures { as_rows_reply result rows.new
        ≡ session_rows_reply (as_flat session_bytes.now session.now) rows.old }
{
    put_mapping(
        rows,
        mmu::session_rows(c_session::read_session(session_bytes, session)),
    )
}
