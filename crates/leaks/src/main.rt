// Takes a footprint file as it arrives on standard input, to its end or until more has come than a file may have, and writes the leak list, or the line that says how the file is refused.
// Where a read fails the file has not ended: then nothing is written but a line on standard error.
#![tactic(auto)]

ghost use Rattle.std.proofs.Common.{rules};
ghost use Rattle.listing.specs.Words.{list_text};
ghost use Rattle.listing.specs.Listing.{output_of};
ghost use Rattle.input.specs.Answer.{Replied};

use input::{Command, Reply};
use std::io::Read;

// The length of the buffer that a file arrives in.
// Stays the program's own: what is promised of it (`reply_to`) is held against another length by a must-fail edit.
const SIZE: usize = 65536;

// No list has more bytes.
const ROOM: usize = 65536;

// The command that says a file's leak list.
#[derive(Clone, Copy)]
struct List;

impl Command<ROOM> for List {
    ghost answers = { λ _. list_text };

    fn put(&self, file: &[u8], room: &mut [u8; ROOM]) -> usize {
        leaklist::told(file, room)
    }

    ghost has_room = { Prim.search rules };
}

// Takes the input into the buffer as it arrives, and puts what is to be said of it at the front of the room.
fn reply_to<R: Read>(reader: &mut R, buffer: &mut [u8; SIZE], room: &mut [u8; ROOM]) -> Reply
    ensures { Replied output_of buffer.old room.old result buffer.new room.new }
{
    input::reply_to(&List, reader, buffer, room)
}

fn main(rt: HostRuntime) {
    let mut buffer = [0u8; SIZE];
    let mut room = [0u8; ROOM];
    let r = reply_to(&mut rt.stdin(), &mut buffer, &mut room);
    if rt.write_all(text::front(&room, r.n)).is_err() {
        let _ = eprintln!(rt; "leaks: writing failed");
    }
    if !input::is_read(r.got) {
        let _ = eprintln!(rt; "leaks: reading failed");
    }
}
