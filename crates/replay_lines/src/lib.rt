// The lines of text that the program prints (01, "The truck's capture file").
#![tactic(auto)]

ghost use Rattle.std.specs.Prelude.{◌≡◌, ℕ, ◌+◌, ◌*◌, ◌≤◌, ◌<◌, List, [], ◌∷◌, ◌++◌, length, take, drop};
ghost use Rattle.replay_lines.specs.Digits.{decimal, hex_digit, hex_of};
ghost use Rattle.replay_lines.specs.Lines.{echo_text, record_line, last_line};
ghost use Rattle.replay_lines.specs.Output.{as_output, appended};

use session_state::Stage;
use std::marker::Model;

// A line, which is written from its end: each piece is put in front of what is there already.
#[derive(Drop)]
struct Line {
    bytes: [u8; 64],
    start: usize,
}

// Clauses see the text. Each method asks for the places that it fills, so that room before the start is no invariant.
impl Model for Line {
    ghost Value = { List ℕ };

    ghost view = { λ l. drop l.start l.bytes };

    ghost invariant = { λ l. l.start ≤ 64 };
}

impl Line {
    fn new() -> Line
        ensures { result ≡ [] }
    {
        Line {
            bytes: [0; 64],
            start: 64,
        }
    }

    fn text(&self) -> &[u8]
        ensures { result.now ≡ self.now }
    {
        &self.bytes[self.start..]
    }

    fn put_byte(&mut self, byte: u8)
        requires { length self.old < 64 }
        ensures { self.new ≡ byte ∷ self.old }
    {
        self.start -= 1;
        self.bytes[self.start] = byte;
    }

    fn put(&mut self, text: &[u8])
        requires { length text.now + length self.old ≤ 64 }
        ensures { self.new ≡ text.now ++ self.old }
    {
        let end = self.start;
        self.start -= text.len();
        self.bytes[self.start..end].copy_from_slice(text);
    }

    // The digits of a number, by hand: std promises what `Display` writes where it succeeds, and not that it succeeds.
    #[tactic(auto, using(crate::proofs::Laws::digit_room, crate::proofs::Laws::digit_last))]
    fn put_decimal(&mut self, n: u64)
        requires { length self.old + 20 ≤ 64 }
        ensures { self.new ≡ decimal n ++ self.old }
    {
        let mut rest = n;
        while 10 <= rest {
            self.put_byte(b'0' + (rest % 10) as u8);
            rest /= 10;
        }
        self.put_byte(b'0' + rest as u8);
    }

    // The digits of several bytes. Where they start is a variable here: a line's own field would be stored at each digit, which took a third
    // more instructions for a CAN record.
    #[tactic(auto, using(crate::proofs::Laws::hex_room))]
    fn put_hex(&mut self, bytes: &[u8])
        requires { 2 * length bytes.now + length self.old ≤ 64 }
        ensures { self.new ≡ hex_of bytes.now ++ self.old }
    {
        let mut start = self.start;
        for byte in bytes.iter().rev() {
            start -= 2;
            self.bytes[start + 1] = hex_digit(*byte % 16);
            self.bytes[start] = hex_digit(*byte / 16);
        }
        self.start = start;
    }

    // The echo, or "-" where there is none.
    fn put_echo(&mut self, echo: &[u8])
        requires { (length echo.now ≤ 8) × (length self.old + 16 ≤ 64) }
        ensures { self.new ≡ echo_text echo.now ++ self.old }
    {
        if echo.is_empty() {
            self.put_byte(b'-');
        } else {
            self.put_hex(echo);
        }
    }

    // A record's line, in an empty one: a line that is returned is copied twice.
    #[tactic(auto, using(crate::proofs::Laws::piece_lengths))]
    fn put_record(&mut self, ordinal: u64, answer: u8, echo: &[u8])
        requires line { self.old ≡ [] }
        requires short { length echo.now ≤ 8 }
        ensures { self.new ≡ record_line ordinal answer echo.now }
    {
        self.put(b"\n");
        self.put_echo(echo);
        self.put(b" ");
        self.put_decimal(u64::from(answer));
        self.put(b" ");
        self.put_decimal(ordinal);
    }
}

// A digit of base 16, by hand as those of `put_decimal`.
fn hex_digit(d: u8) -> u8
    requires { d < 16 }
    ensures { result ≡ hex_digit d }
{
    if d < 10 { b'0' + d } else { b'A' + (d - 10) }
}

// The last line.
impl From<Stage> for Line {
    ghost from_gives = { λ stage line. line ≡ last_line stage };

    fn from(stage: Stage) -> Line {
        let mut line = Line::new();
        line.put(b"\n");
        match stage {
            Stage::Waiting => line.put(b"end waiting"),
            Stage::Password => line.put(b"end password"),
            Stage::Header(_) => line.put(b"end header"),
            Stage::Data(_, _) => line.put(b"end data"),
            Stage::Stopped(refusal) => {
                line.put_decimal(u64::from(session_answers::refusal_number(refusal)));
                line.put(b"end stopped ");
            }
            Stage::Jumped(jump) => {
                line.put_hex(&octets::word_bytes(jump.start.0));
                line.put(b"end jump ");
            }
        }
        line
    }
}

// Puts text behind what is there already, or nothing where it has no room, and returns how many bytes are used then.
// The output and that number stay two parameters: with both in a struct, each contract would also say that it keeps the reference.
#[tactic(auto, unfolding(crate::specs::Output::appended))]
fn append(out: &mut [u8], used: usize, text: &[u8]) -> usize
    ensures { as_output out.new result ≡ appended (as_output out.old used) text.now }
{
    if out.len() < used || out.len() - used < text.len() {
        return used;
    }
    let end = used + text.len();
    out[used..end].copy_from_slice(text);
    end
}

// Appends a record's line, with at most eight bytes of an echo.
pub fn record_line(out: &mut [u8], used: usize, ordinal: u64, answer: u8, echo: &[u8]) -> usize
    ensures { as_output out.new result ≡ appended (as_output out.old used) (record_line ordinal answer (take 8 echo.now)) }
{
    let shown = &echo[..echo.len().min(8)];
    let mut line = Line::new();
    line.put_record(ordinal, answer, shown);
    append(out, used, line.text())
}

// Appends the last line.
pub fn last_line(out: &mut [u8], used: usize, stage: Stage) -> usize
    ensures { as_output out.new result ≡ appended (as_output out.old used) (last_line stage) }
{
    append(out, used, Line::from(stage).text())
}
