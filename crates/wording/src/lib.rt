// The lines of lists and refusals, each put into a room whole or not at all.
#![tactic(auto)]

ghost use Rattle.std.specs.Prelude.{◌+◌, ◌≤◌, ◌↔◌, length, IsSome, unwrap_or};
ghost use Rattle.layout.specs.Verdict.{number_at};
ghost use Rattle.text.specs.Room.{Measured, Put};
ghost use Rattle.listing.specs.Words.{count_line, first_line, touching_line, formerly_line, refused_line};
ghost use Rattle.wording.specs.Lines.{leak_line_of};

use text::{Text, Word};

// The length of a leak line.
// Stays three numbers, here and where it is put: docs/PROMISES.md has both by `leak_line_of`, and what is listed is a triple of numbers.
pub fn line_length(test: u32, train: u32, n: u32) -> usize
    ensures { Measured (leak_line_of test train n) result × (result ≤ 20000000000) }
{
    20 + text::width(test) + text::width(train) + text::width(n)
}

// Puts a leak line from a place on, and hands back the place behind it. Where it does not fit, nothing is put.
pub fn put_line(room: &mut [u8], at: usize, test: u32, train: u32, n: u32) -> Option<usize>
    ensures placed { Put room.old at (leak_line_of test train n) room.new (unwrap_or result at) }
    ensures fits { IsSome result ↔ (at + length (leak_line_of test train n) ≤ length room.old) }
{
    let line = Word(b"test ").then(test);
    let line = line.then(Word(b" train ")).then(train);
    let line = line.then(Word(b" pairs ")).then(n);
    line.then(Word(b"\n")).put(room, at)
}

// Puts a line of a word and a number, likewise.
fn put_count(room: &mut [u8], at: usize, word: &[u8], k: u32) -> Option<usize>
    ensures placed { Put room.old at (count_line word.now k) room.new (unwrap_or result at) }
    ensures fits { IsSome result ↔ (at + length (count_line word.now k) ≤ length room.old) }
{
    Word(word).then(k).then(Word(b"\n")).put(room, at)
}

// The length of the first line of a list of k leaks.
// Stays three functions and three that put: each is one line, and one generic over the word would be as long at every call.
pub fn first_length(k: u32) -> usize
    ensures { Measured (first_line k) result × (result ≤ k + 8) }
{
    7 + text::width(k)
}

// Puts that line at the front of the room, and hands back its length.
pub fn put_first(room: &mut [u8], k: u32) -> Option<usize>
    ensures placed { Put room.old 0 (first_line k) room.new (unwrap_or result 0) }
    ensures fits { IsSome result ↔ (length (first_line k) ≤ length room.old) }
{
    put_count(room, 0, b"leaks ", k)
}

// The length of the line that says how many pairs of recordings only touch.
pub fn touching_length(k: u32) -> usize
    ensures { Measured (touching_line k) result × (result ≤ k + 11) }
{
    10 + text::width(k)
}

// Puts that line from a place on, and hands back the place behind it.
pub fn put_touching(room: &mut [u8], at: usize, k: u32) -> Option<usize>
    ensures placed { Put room.old at (touching_line k) room.new (unwrap_or result at) }
    ensures fits { IsSome result ↔ (at + length (touching_line k) ≤ length room.old) }
{
    put_count(room, at, b"touching ", k)
}

// The length of the last line, which says how many recordings were formerly held back.
pub fn formerly_length(k: u32) -> usize
    ensures { Measured (formerly_line k) result × (result ≤ k + 21) }
{
    20 + text::width(k)
}

// Puts that line, likewise.
pub fn put_formerly(room: &mut [u8], at: usize, k: u32) -> Option<usize>
    ensures placed { Put room.old at (formerly_line k) room.new (unwrap_or result at) }
    ensures fits { IsSome result ↔ (at + length (formerly_line k) ≤ length room.old) }
{
    put_count(room, at, b"formerly held back ", k)
}

// Puts the line that says how a file is refused at the front of the room, and hands back its length. Where it does not fit, nothing is put.
pub fn put_refusal(room: &mut [u8], number: u32, place: u32) -> Option<usize>
    ensures placed { Put room.old 0 (refused_line (number_at number place)) room.new (unwrap_or result 0) }
    ensures fits { IsSome result ↔ (length (refused_line (number_at number place)) ≤ length room.old) }
{
    let line = Word(b"refused ").then(number);
    let line = line.then(Word(b" at ")).then(place);
    line.then(Word(b"\n")).put(room, 0)
}
