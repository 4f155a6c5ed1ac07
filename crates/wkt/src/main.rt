// Takes a footprint file as it arrives on standard input, to its end or until more has come than a file may have, and writes the well-known text of the recording whose id is its one argument, and a line feed, or the line that says how that is refused.
// Where a read fails the file has not ended: then nothing is written but a line on standard error. So it is where the argument is no id.
#![tactic(auto)]

ghost use Rattle.std.specs.Prelude.{◌≡◌, ◌≤◌, length};
ghost use Rattle.std.proofs.Common.{rules};
ghost use Rattle.input.specs.Answer.{Replied};
ghost use Rattle.wkt.specs.Answer.{text_or_line, output_of};

use arrival::SIZE;
use input::{Command, Reply};
use std::env::{Env, FillError};
use std::io::Read;

// No text has more bytes, with its line feed.
const ROOM: usize = 256546;

// No id is so long.
const WORD: usize = 16;

fn empty_room() -> [u8; ROOM]
    ensures { length result ≡ 256546 }
{
    [0; ROOM]
}

// The command that says the well-known text of the recording with an id.
#[derive(Clone, Copy)]
struct WellKnownText {
    id: u32,
}

impl Command<ROOM> for WellKnownText {
    ghost answers = { λ c. text_or_line c.id };

    fn put(&self, file: &[u8], room: &mut [u8; ROOM]) -> usize {
        let a = showing::wkt(file, self.id, room);
        if a.number != 0 {
            return wording::put_refusal(room, a.number, a.place).unwrap_or(0);
        }
        text::put_bytes(room, a.length, b"\n").unwrap_or(a.length)
    }

    ghost has_room = { Prim.search rules };
}

// Takes the input into the buffer as it arrives, and puts what is to be said of it at the front of the room.
fn reply_to<R: Read>(
    reader: &mut R,
    buffer: &mut [u8; SIZE],
    id: u32,
    room: &mut [u8; ROOM],
) -> Reply
    ensures { Replied (output_of id) buffer.old room.old result buffer.new room.new }
{
    input::reply_to(&WellKnownText { id }, reader, buffer, room)
}

// What the program does where its argument is an id.
fn run(rt: &HostRuntime, id: u32) {
    let mut buffer = [0u8; SIZE];
    let mut room = empty_room();
    let r = reply_to(&mut rt.stdin(), &mut buffer, id, &mut room);
    if rt.write_all(text::front(&room, r.n)).is_err() {
        let _ = eprintln!(rt; "wkt: writing failed");
    }
    if !input::is_read(r.got) {
        let _ = eprintln!(rt; "wkt: reading failed");
    }
}

// The length of word i of the command, which is then in the space; 0 where it is not there or longer than the space.
fn word_at<E: Env>(env: &E, i: usize, space: &mut [u8]) -> usize
    ensures { result ≤ length space.new }
{
    env.arg(i, space).unwrap_or(0)
}

// Whether the command has a word i.
fn is_given<E: Env>(env: &E, i: usize) -> bool {
    let mut space = [0u8; WORD];
    !matches!(env.arg(i, &mut space), Err(FillError::NotPresent))
}

// How many words the command has, its own name among them; 3 if it has more.
fn word_count<E: Env>(env: &E) -> usize {
    (0..3).take_while(|i| is_given(env, *i)).count()
}

fn main(rt: HostRuntime) {
    let mut word = [0u8; WORD];
    let n = word_at(&rt, 1, &mut word);
    match words::asked(word_count(&rt), &word[..n]) {
        Some(id) => run(&rt, id),
        None => {
            let _ = eprintln!(rt; "usage: wkt ID <FILE");
        }
    }
}
