// Reads of a byte, of big-endian numbers and of eight bytes that answer for every place of every slice; a number as its bytes; and differences and
// least numbers, which answer for all numbers. Where a body is one call of the library, the function stays for its promise, which docs/CLAIMS.md
// names and a wrong program tries.
#![tactic(auto)]

ghost use Rattle.std.specs.Prelude.{◌≡◌, ◌-◌, min};
ghost use Rattle.octets.specs.Read.{byte_at, half_at, word_at, first_eight};
ghost use Rattle.octets.specs.Bytes.{word_bytes};

use std::array;

// The difference of two numbers, or 0 where the second is larger.
pub fn difference(a: usize, b: usize) -> usize
    ensures { result ≡ a - b }
{
    a.saturating_sub(b)
}

// The smaller of two numbers.
pub fn least(a: usize, b: usize) -> usize
    ensures { result ≡ min a b }
{
    a.min(b)
}

// The byte at a place, or 0 past the end.
pub fn byte(s: &[u8], at: usize) -> u8
    ensures { result ≡ byte_at s.now at }
{
    s.get(at).copied().unwrap_or(0)
}

// The half word at a place.
pub fn half(s: &[u8], at: usize) -> u16
    ensures { result ≡ half_at s.now at }
{
    if at < s.len() {
        u16::from_be_bytes([byte(s, at), byte(s, at + 1)])
    } else {
        0
    }
}

// The word at a place. It and `half` stay two: the clause of one function over the size would be of a list of any length, and the library has no trait of
// the numbers that have `from_be_bytes`.
pub fn word(s: &[u8], at: usize) -> u32
    ensures { result ≡ word_at s.now at }
{
    if at < s.len() {
        u32::from_be_bytes([
            byte(s, at),
            byte(s, at + 1),
            byte(s, at + 2),
            byte(s, at + 3),
        ])
    } else {
        0
    }
}

// The first eight bytes.
pub fn first_eight(s: &[u8]) -> [u8; 8]
    ensures { result ≡ first_eight s.now }
{
    array::from_fn(|i| byte(s, i))
}

// The four bytes of a number of 32 bits.
pub fn word_bytes(word: u32) -> [u8; 4]
    ensures { result ≡ word_bytes word }
{
    word.to_be_bytes()
}
