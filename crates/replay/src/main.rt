// `replay`: a capture from a file or standard input, its text on standard output (01, "The truck's capture file"). The work is in
// `replay_window`; this program only reads, calls and writes.
#![tactic(auto)]

ghost use Rattle.std.specs.Prelude.{◌≤◌, IfOk, length};

use replay_record::Progress;
use std::env::{Env, FillError};
use std::fmt::Display;
use std::fs::File;
use std::io;
use std::io::{ErrorKind, IsTerminal, Read, Write};
use std::rt::Files;

// How the program is called.
const USAGE: &str = "usage: replay [FILE]\n       replay --help\n";

// What it does, what it reads and what it writes.
const HELP: &str = "\n\
    Shows what a head answers to a capture, which is read from FILE or, without\n\
    it, from standard input.\n\
    \n\
    A capture is a truck's file: records, one behind the other. A record has two\n\
    bytes for the length of what follows, the byte 01, a byte for its kind, and a\n\
    body. Kind 1 is a CAN frame (two bytes of identifier and at most 8 of data),\n\
    2 a clean and 3 a faulty serial byte, 4 a reset.\n\
    \n\
    Each record gives a line: its number, the answer's number, and the echo in\n\
    hex or \"-\". Of the answers 0 is an item taken, 1 one ignored and 5 the jump;\n\
    2, 3, 4 and 12 stop the head; 10 is a damaged record, and ends the text.\n\
    \n\
    The last line says where the head is: end waiting, end password, end header,\n\
    end data, end stopped N or end jump ADDRESS. Where it is missing, the file was\n\
    not opened or a read or a write has failed, and standard error says why.\n";

// Says on standard error what failed, and why. Nothing is left to do where that fails too.
fn complain(rt: &impl Eprint, name: &str, why: impl Display + Drop) {
    let _ = eprintln!(rt; "replay: {name}: {why}");
}

// Says on standard error why a write to standard output failed, where one did. A write that a signal interrupts is made again, and one
// that takes nothing has failed.
fn complain_of_output(rt: &impl Eprint, written: io::Result<()>) {
    match written {
        Ok(()) => {}
        Err(error) if error.kind() == ErrorKind::WriteZero => {
            let _ = eprintln!(rt; "replay: standard output takes no more");
        }
        Err(error) => complain(rt, "standard output", error),
    }
}

// How long a window has to be that begins with these bytes, so that the records are played that are whole in them, and nothing behind
// those: of a window that is not the last, a record is played that begins 14 bytes before its end or earlier. They are at most 13 bytes, which is
// what a window leaves (`replay_window: Windows.ready`).
fn whole_part(bytes: &[u8]) -> usize {
    let mut part = 0;
    let mut at = 0;
    while let Ok(Some(record)) = capture::read(bytes, at) {
        part = at.saturating_add(14);
        at = record.next;
    }
    part
}

// A capture that is played: where it is read, by its name, where its text goes, and what is kept from window to window.
#[derive(Drop)]
struct Player<'a, E, I, O> {
    rt: &'a E,
    name: &'a str,
    input: &'a mut I,
    output: &'a mut O,
    progress: Progress,
    last: bool,
}

impl<E: Eprint, I: Read, O: Write> Player<'_, E, I, O> {
    // Reads once behind the bytes that the window holds, unless the input has ended or there is no room: to read no bytes looks like the
    // end. Returns how many bytes the window holds then. A read that a signal interrupted brings none. The window is fixed memory, so how many bytes
    // it holds stands beside it.
    fn read(&mut self, window: &mut [u8], held: usize) -> io::Result<usize>
        requires { held ≤ length window.old }
        ensures { IfOk result (λ have. have ≤ length window.new) }
    {
        if self.last || held == window.len() {
            return Ok(held);
        }
        match self.input.read(&mut window[held..]) {
            Ok(count) => {
                self.last = count == 0;
                Ok(held + count)
            }
            Err(error) if error.kind() == ErrorKind::Interrupted => Ok(held),
            Err(error) => Err(error),
        }
    }

    // Plays what can be played of a window, and writes its text.
    fn play(&mut self, window: &mut [u8], sram: &mut [u8], out: &mut [u8]) -> io::Result<()> {
        self.progress = replay_window::play_window(window, self.last, self.progress, sram, out);
        let used = self.progress.used.min(out.len());
        self.output.write_all(&out[..used])
    }

    // Plays window after window until the text has ended, or a read or a write has failed. After a read that failed the whole records that
    // wait for more are played. A proved loop has to end, so its turns are counted, to a number that no run uses up.
    fn play_all(&mut self) -> io::Result<()> {
        let mut window = [0; 8192];
        let mut sram = replay_record::zeroed_sram();
        let mut out = [0; 65536];
        for _ in 0..u64::MAX {
            let held = self.progress.unread.min(window.len());
            match self.read(&mut window, held) {
                Ok(have) => self.play(&mut window[..have], &mut sram, &mut out)?,
                Err(error) => {
                    complain(self.rt, self.name, error);
                    let have = whole_part(&window[..held]).max(held).min(window.len());
                    return self.play(&mut window[..have], &mut sram, &mut out);
                }
            }
            if self.progress.ended {
                break;
            }
        }
        Ok(())
    }
}

// Plays the capture that an input brings. A failure of standard output is said here, before the input is closed.
fn play_capture<'a>(
    rt: &'a impl Eprint,
    name: &'a str,
    input: &'a mut impl Read,
    output: &'a mut impl Write,
) {
    let mut player = Player {
        rt,
        name,
        input,
        output,
        progress: replay_record::begin(),
        last: false,
    };
    complain_of_output(rt, player.play_all());
}

// Plays the capture on standard input.
fn play_input(rt: &impl Eprint, input: &mut (impl Read + IsTerminal), output: &mut impl Write) {
    if input.is_terminal() {
        let _ = eprintln!(rt; "replay: reading a capture from the terminal");
    }
    play_capture(rt, "standard input", input, output);
}

// Writes how the program is called, and what it does.
fn help(output: &mut impl Write) -> io::Result<()> {
    output.write_all(USAGE.as_bytes())?;
    output.write_all(HELP.as_bytes())
}

// Does what the program's only argument asks. A file's name is text.
fn follow(rt: &(impl Files + Eprint), word: &[u8], output: &mut impl Write) {
    if word == b"--help".as_slice() {
        complain_of_output(rt, help(output));
        return;
    }
    if word.starts_with(b"-".as_slice()) {
        let _ = rt.eprint(USAGE);
        return;
    }
    let Ok(name) = str::from_utf8(word) else {
        complain(rt, "the argument", "not UTF-8");
        return;
    };
    match File::open(rt, name) {
        Ok(mut file) => play_capture(rt, name, &mut file, output),
        Err(error) => complain(rt, name, error),
    }
}

fn main(rt: HostRuntime) {
    if !matches!(rt.arg(2, &mut [0u8; 1]), Err(FillError::NotPresent)) {
        let _ = rt.eprint(USAGE);
        return;
    }
    let mut word = [0u8; 4096];
    match rt.arg(1, &mut word) {
        Ok(length) => follow(&rt, &word[..length], &mut rt.stdout()),
        Err(FillError::NotPresent) => play_input(&rt, &mut rt.stdin(), &mut rt.stdout()),
        Err(FillError::TooLong) => complain(&rt, "the argument", "File name too long"),
    }
}
