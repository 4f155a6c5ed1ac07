// Reading cases: a text in lines and words, and what the hexadecimal digits of a word stand for.
#![tactic(auto)]

ghost use Rattle.std.specs.Prelude.{IfOk, OnErr, ◌≡◌, ◌+◌, ◌-◌, ◌*◌, ◌≤◌, ◌<◌, eqb, min, length, drop, position};
ghost use Rattle.std.specs.Float.{binary64};
ghost use Rattle.std.specs.Float.Ieee.{of_bits, to_bits};
ghost use Rattle.cases.specs.Digits.{digit_value, number_of, byte_of, fitting, filled, glyph as glyph_of, spelt, lettered};
ghost use Rattle.std.specs.Iterator.{YieldsFirstRef, item_count};
ghost use Rattle.cases.specs.Words.{until as until_of, lines_of, lines_left};
ghost use Rattle.std.specs.Io.{ReadsAtMost};
ghost use Rattle.cases.specs.Input.{FilledBy, CameBefore};

use std::io;
use std::io::Read;

// Reads until the room is full or the input ends; how many bytes came, which stand at the room's front. Where a read fails, its error.
// Stays a count beside the room: its promise (`ReadsAtMost`, `FilledBy`) has both.
pub fn read_input<R: Read>(reader: &mut R, room: &mut [u8]) -> io::Result<usize>
    ensures bound { ReadsAtMost result room.new }
    ensures filled { IfOk result (λ n. FilledBy (R.remaining reader.old) (R.remaining reader.new) n room.new) }
    ensures failed { OnErr result (CameBefore (R.remaining reader.old) (R.remaining reader.new) room.new) }
{
    let mut done: usize = 0;
    // Stays a `while`: nothing is gone through; the room, or a read that brings nothing, ends it.
    while done < room.len() {
        let n = reader.read(&mut room[done..])?;
        if n == 0 {
            break;
        }
        done = done + n;
    }
    Ok(done)
}

// What stands in the text from a place on; nothing where the text has ended.
fn behind(text: &[u8], from: usize) -> &[u8]
    ensures { result.now ≡ drop from text.now }
{
    &text[from.min(text.len())..]
}

// Where the first `stop` stands, if there is one.
fn place_of(text: &[u8], stop: u8) -> Option<usize>
    ensures { result ≡ position (λ b. eqb b stop) text.now }
{
    text.iter().position(|b| *b == stop)
}

// What stands in the text from a place on, before the first byte `stop`; nothing where the text has ended.
pub fn until(text: &[u8], from: usize, stop: u8) -> &[u8]
    ensures { (result.now ≡ until_of text.now from stop) × (length result.now ≤ length text.now - from) }
{
    let rest = behind(text, from);
    match place_of(rest, stop) {
        Some(n) => &rest[..n],
        None => rest,
    }
}

// The lines of a text, from the first one that is still to come.
#[derive(Clone, Copy)]
pub struct EachLine<'a> {
    rest: &'a [u8],
}

// The lines of a text: each without the line feed that ends it, and none behind the last line feed.
pub fn lines(text: &[u8]) -> EachLine<'_>
    ensures { lines_left result ≡ lines_of text.now }
{
    EachLine { rest: text }
}

impl<'a> Iterator for EachLine<'a> {
    type Item = &'a [u8];

    ghost next_gives = { YieldsFirstRef lines_left };

    ghost remaining = { item_count lines_left };

    fn next(&mut self) -> Option<&'a [u8]> {
        let rest = self.rest;
        if rest.is_empty() {
            return None;
        }
        let line = until(rest, 0, b'\n');
        self.rest = behind(rest, line.len() + 1);
        Some(line)
    }
}

// The number that a digit stands for; 0 for any other byte.
// Stays by hand: `digit_value`, which the promises of `number_of` and `bytes_of` rest on, counts any other byte as 0.
#[tactic(auto, unfolding(crate::specs::Digits::digit_value))]
fn digit(b: u8) -> u8
    ensures { (result ≡ digit_value b) × (result < 16) }
{
    match b {
        b'0'..=b'9' => b - 48,
        b'a'..=b'f' => b - 87,
        _ => 0,
    }
}

// The number that the digits stand for, the last sixteen of them if there are more.
#[tactic(auto, unfolding(crate::specs::Digits::number_to, crate::specs::Digits::number_of))]
pub fn number_of(text: &[u8]) -> u64
    ensures { result ≡ number_of text.now }
{
    let mut v: u64 = 0;
    for b in text {
        v = v % 1152921504606846976 * 16 + u64::from(digit(*b));
    }
    v
}

// Byte k of the digits.
fn byte_of(text: &[u8], k: usize) -> u8
    requires { k + k + 2 ≤ length text.now }
    ensures { result ≡ byte_of text.now k }
{
    digit(text[2 * k]) * 16 + digit(text[2 * k + 1])
}

// The bytes that the digits stand for, two digits each, to the front of the room, as many as it holds; how many.
// Stays a count beside the room: its promise (`fitting`, `filled`) has both.
pub fn bytes_of(text: &[u8], room: &mut [u8]) -> usize
    ensures { (result ≡ fitting text.now room.old) × (room.new ≡ filled text.now room.old) × (result ≤ length room.new) }
{
    let n = (text.len() / 2).min(room.len());
    for k in 0..n {
        room[k] = byte_of(text, k);
    }
    n
}

fn glyph(d: u8) -> u8
    requires { d < 16 }
    ensures { result ≡ glyph_of d }
{
    if d < 10 {
        return 48 + d;
    }
    87 + d
}

// The digits of the bytes, two each, to the front of the room, of as many bytes as it holds; how many digits.
// Stays a count beside the room, and digits by hand: its promise (`spelt`, `lettered`) has both, of a room of any length.
pub fn digits_of(bytes: &[u8], room: &mut [u8]) -> usize
    ensures { (result ≡ 2 * spelt bytes.now room.old) × (room.new ≡ lettered bytes.now room.old) × (result ≤ length room.new) }
{
    let n = bytes.len().min(room.len() / 2);
    for k in 0..n {
        let b = bytes[k];
        room[2 * k] = glyph(b / 16);
        room[2 * k + 1] = glyph(b % 16);
    }
    2 * n
}

// The double with these bits, NaN for those of any NaN.
// Stays by hand, as `bits_of` does: std's conversion leaves open which NaN it gives, and `of_bits` has one.
pub fn value_of(bits: u64) -> f64
    ensures { result ≡ of_bits binary64 bits }
{
    if bits % 9223372036854775808 / 4503599627370496 == 2047 {
        if bits % 4503599627370496 == 0 {
            return f64::from_bits(bits);
        }
        return 0.0 / 0.0;
    }
    f64::from_bits(bits)
}

// The bits of a double, the same ones for any NaN.
pub fn bits_of(x: f64) -> u64
    ensures { result ≡ to_bits binary64 x }
{
    if x == x {
        return f64::to_bits(x);
    }
    0x7ff8000000000000
}
