// Decimal numbers and bytes in a lent room, measured before they are put.
#![tactic(auto)]

ghost use Rattle.std.specs.Prelude.{◌≡◌, ◌+◌, ◌%◌, ◌^◌, ◌<◌, ◌≤◌, ◌↔◌, ℕ, List, ◌++◌, length, take, IsSome, SomeIff, unwrap_or};
ghost use Rattle.text.specs.Decimal.{digit as digit_of, decimal};
ghost use Rattle.text.specs.Room.{Measured, Put};
ghost use Rattle.text.specs.Code.{digits};

// What is said of something that was to be written to lent room: its length beside number 0 and place 0, or a refusal's number and place with length 0.
// Stays numbers: `meskelow_write` and `meskelow_wkt` hand it to C.
#[repr(C)]
#[derive(Clone, Copy)]
pub struct Written {
    pub number: u32,
    pub place: u32,
    pub length: usize,
}

// How many digits n has.
// Stays a tree of comparisons: by the logarithm to ten, `ilog10`, the longest well-known text takes 5.9 instructions a byte, by this 5.4.
pub fn width(n: u32) -> usize
    ensures { Measured (decimal n) result × (result ≤ n + 1) × (result ≤ 10) }
{
    if n < 1000 {
        if n < 10 {
            return 1;
        }
        if n < 100 {
            return 2;
        }
        return 3;
    }
    if n < 10000 {
        return 4;
    }
    if n < 100000 {
        return 5;
    }
    if n < 1000000 {
        return 6;
    }
    if n < 10000000 {
        return 7;
    }
    if n < 100000000 {
        return 8;
    }
    if n < 1000000000 {
        return 9;
    }
    10
}

// The byte of the last digit of n.
pub fn digit(n: u32) -> u8
    ensures { result ≡ digit_of (n % 10) }
{
    b'0' + (n % 10) as u8
}

// The place behind so many values that are put from a place on, if a room of this length has it.
fn behind(most: usize, at: usize, size: usize) -> Option<usize>
    ensures { SomeIff result (at + size ≤ most) (at + size) }
{
    let behind = at.checked_add(size)?;
    if most < behind {
        return None;
    }
    Some(behind)
}

// Fills a room with the last digits of n, as many as it has places.
// Stays with a place: the last digit comes first, and after `iter_mut().rev()` nothing is known of what was put.
fn fill_digits(room: &mut [u8], n: u32)
    ensures { room.new ≡ digits (length room.old) n }
{
    let mut m = n;
    for i in (0..room.len()).rev() {
        room[i] = digit(m);
        m /= 10;
    }
}

// Puts n in decimal into the room from a place on and hands back the place behind it. Where it does not fit, nothing is put.
pub fn put_decimal(room: &mut [u8], at: usize, n: u32) -> Option<usize>
    ensures placed { Put room.old at (decimal n) room.new (unwrap_or result at) }
    ensures fits { IsSome result ↔ (at + length (decimal n) ≤ length room.old) }
{
    let behind = behind(room.len(), at, width(n))?;
    fill_digits(&mut room[at..behind], n);
    Some(behind)
}

// Bytes in the place of as many others.
// Stays with a number: `copy_from_slice` becomes the C library's memmove where the compiler does not see that the bytes lie apart from the room, and a caller in C has no more to have than memcpy and memset (include/meskelow.h).
fn copy(room: &mut [u8], bytes: &[u8])
    requires { length room.old ≡ length bytes.now }
    ensures { room.new ≡ bytes.now }
{
    for (k, b) in bytes.iter().enumerate() {
        room[k] = *b;
    }
}

// The same of bytes.
pub fn put_bytes(room: &mut [u8], at: usize, bytes: &[u8]) -> Option<usize>
    ensures placed { Put room.old at bytes.now room.new (unwrap_or result at) }
    ensures fits { IsSome result ↔ (at + length bytes.now ≤ length room.old) }
{
    let behind = behind(room.len(), at, bytes.len())?;
    copy(&mut room[at..behind], bytes);
    Some(behind)
}

// A text: it knows how long it is, and is put into a room whole or not at all.
pub trait Text {
    ghost text: { Self → List ℕ };

    // How long it is, if 64 bits can say that.
    fn length(&self) -> Option<usize>
        ensures { SomeIff result (length (text self.now) < 2 ^ 64) (length (text self.now)) };

    // Puts it into the room from a place on and hands back the place behind it. Where it does not fit, nothing is put.
    fn put(&self, room: &mut [u8], at: usize) -> Option<usize>
        ensures placed { Put room.old at (text self.now) room.new (unwrap_or result at) }
        ensures fits { IsSome result ↔ (at + length (text self.now) ≤ length room.old) };

    // It, and another behind it.
    final fn then<B: Text>(self, next: B) -> (Self, B)
    where
        Self: Sized,
        ensures { result ≡ (self, next) }
    {
        (self, next)
    }
}

// A number is put in decimal.
impl Text for u32 {
    ghost text = { decimal };

    fn length(&self) -> Option<usize> {
        Some(width(*self))
    }

    fn put(&self, room: &mut [u8], at: usize) -> Option<usize> {
        put_decimal(room, at, *self)
    }
}

// A word: its bytes are put as they are.
#[derive(Clone, Copy)]
pub struct Word<'a>(pub &'a [u8]);

impl<'a> Text for Word<'a> {
    ghost text = { λ w. w.0.now };

    fn length(&self) -> Option<usize> {
        Some(self.0.len())
    }

    fn put(&self, room: &mut [u8], at: usize) -> Option<usize> {
        put_bytes(room, at, self.0)
    }
}

// Two texts are put one behind the other.
impl<A: Text, B: Text> Text for (A, B) {
    ghost text = { λ p. A.text p.0 ++ B.text p.1 };

    fn length(&self) -> Option<usize> {
        self.0.length()?.checked_add(self.1.length()?)
    }

    fn put(&self, room: &mut [u8], at: usize) -> Option<usize> {
        behind(room.len(), at, self.length()?)?;
        let next = self.0.put(room, at)?;
        self.1.put(room, next)
    }
}

// The first n bytes; all, where there are no more.
pub fn front(bytes: &[u8], n: usize) -> &[u8]
    ensures { result.now ≡ take n bytes.now }
{
    &bytes[..n.min(bytes.len())]
}
