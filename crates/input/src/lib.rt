// The reading of a file as it arrives: what one read's answer says, all reads together, each one's bytes a piece of the file, whether what arrived may be answered, and what a command says of it.
#![tactic(auto)]

ghost use Rattle.std.specs.Prelude.{◌≡◌, ◌≤◌, ℕ, List, [], length, take};
ghost use Rattle.arrival.specs.Calls.{piece};
ghost use Rattle.arrival.specs.Promise.{CallPromise};
ghost use Rattle.input.specs.Reading.{piece_of, is_read, Gathered};
ghost use Rattle.listing.specs.Words.{refused_line};
ghost use Rattle.input.specs.Answer.{Took, AtFront, said_of, said_by, output_for, Replied};

use arrival::{Arrival, SIZE, State, TOO_MANY};
use std::io::Read;

// What one read's answer says.
// Stays an enum of its own: `Took`, `Gathered`, `MoreWithin` and `Delivered` (specs) speak of its variants.
#[derive(Clone, Copy)]
pub enum Piece {
    Failed,
    Ended,
    More(usize),
}

// How many bytes have arrived, as they are counted, and what the last read said.
#[derive(Clone, Copy)]
pub struct Got {
    pub arrived: u32,
    pub last: Piece,
}

// What arrived of an input, and how long the text is that is to be said of it.
#[derive(Clone, Copy)]
pub struct Reply {
    pub got: Got,
    pub n: usize,
}

// How the answer of a read of at most so many bytes is taken: a negative number as a failure, 0 as the end of the input, any other as so many bytes.
// Stays with a number: its promise (`piece_of`), `Moved` and `MoreWithin` (specs) speak of an answer that can be negative.
pub fn piece_of(got: isize, most: usize) -> Piece
    ensures { result ≡ piece_of most got }
{
    if got < 0 {
        return Piece::Failed;
    }
    let n = most.min(got as usize);
    if n == 0 {
        return Piece::Ended;
    }
    Piece::More(n)
}

// Whether all arrived that is to be answered: unless the last read failed.
pub fn is_read(g: Got) -> bool
    ensures { result ≡ is_read g.last }
{
    match g.last {
        Piece::Failed => false,
        Piece::Ended => true,
        Piece::More(_) => true,
    }
}

fn read_some<R: Read>(reader: &mut R, part: &mut [u8]) -> Piece
    ensures { Took (length part.new) result }
{
    let got = match reader.read(part) {
        Ok(n) => n as isize,
        Err(_) => -1,
    };
    piece_of(got, part.len())
}

// Hands the first k bytes of what a read left over as a piece of the file, by the count so far.
fn handed(part: &[u8], k: usize, arrived: u32, buffer: &mut [u8]) -> Arrival
    ensures { CallPromise (record { arrived = arrived; ended = 0 }) (piece (take k part.now)) buffer.old result buffer.new }
{
    arriving::piece(State { arrived, ended: 0 }, text::front(part, k), buffer)
}

// Hands what each read brings over as a piece of the file, until the input ends, a read fails or more has arrived than a file may have. Where the buffer has another length than 65,536 nothing is read, as if that had failed.
#[tactic(auto, using(crate::proofs::Nothing::nothing_read))]
pub fn read_all<R: Read>(reader: &mut R, buffer: &mut [u8]) -> Got
    ensures { Gathered buffer.old result buffer.new }
{
    let mut arrived: u32 = 0;
    let mut last = Piece::Failed;
    if buffer.len() != SIZE {
        return Got { arrived, last };
    }
    let mut part = [0u8; SIZE];
    // Stays a `while`: nothing is gone through; a read's answer or the count that a piece's answer has ends it.
    while arrived < TOO_MANY {
        last = read_some(reader, &mut part);
        let Piece::More(k) = last else {
            return Got { arrived, last };
        };
        let a = handed(&part, k, arrived, buffer);
        arrived = a.arrived;
    }
    Got { arrived, last }
}

// A command that says something of a file, in a room of so many bytes.
pub trait Command<const ROOM: usize> {
    // What it says of a good file's bytes.
    ghost answers: { Self → List ℕ → List ℕ };

    // Puts that at the front of the room, or the line that says how the file is refused; its length.
    fn put(&self, file: &[u8], room: &mut [u8; ROOM]) -> usize
        ensures { AtFront (said_of (answers self.now) file.now) room.old result room.new };

    // The room is large enough for the line of any refusal.
    ghost has_room: { 64 ≤ ROOM };
}

// What is to be said by what the end answered: of a refused file its line, else of the file at the buffer's front.
fn said<const ROOM: usize, C: Command<ROOM>>(
    c: &C,
    a: Arrival,
    buffer: &[u8],
    room: &mut [u8; ROOM],
) -> usize
    ensures { AtFront (said_by refused_line (said_of (C.answers c.now)) a buffer.now) room.old result room.new }
{
    if a.number != 0 {
        return wording::put_refusal(room, a.number, a.place).unwrap_or(0);
    }
    let n = a.arrived as usize;
    c.put(text::front(buffer, n), room)
}

// What is to be said of the input, of which so much has arrived in the buffer: nothing, where a read failed.
fn answer<const ROOM: usize, C: Command<ROOM>>(
    c: &C,
    g: Got,
    buffer: &[u8],
    room: &mut [u8; ROOM],
) -> usize
    ensures { AtFront (output_for refused_line (said_of (C.answers c.now)) g buffer.now) room.old result room.new }
{
    let arrived = g.arrived;
    if is_read(g) {
        let a = arriving::end(State { arrived, ended: 0 }, buffer);
        return said(c, a, buffer, room);
    }
    0
}

// Takes the input into the buffer as it arrives, and puts what the command says of it at the front of the room: nothing, where a read failed or the buffer has another length than 65,536.
pub fn reply_to<const ROOM: usize, C: Command<ROOM>, R: Read>(
    c: &C,
    reader: &mut R,
    buffer: &mut [u8],
    room: &mut [u8; ROOM],
) -> Reply
    ensures replied { length buffer.old ≡ 65536 → Replied (said_of (C.answers c.now)) buffer.old room.old result buffer.new room.new }
    ensures nothing { (length buffer.old ≡ 65536 → ⊥) → AtFront [] room.old result.n room.new }
    ensures gathered { Gathered buffer.old result.got buffer.new }
{
    let got = read_all(reader, buffer);
    let n = answer(c, got, buffer, room);
    Reply { got, n }
}
