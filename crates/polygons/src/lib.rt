// The polygon of a triangle in a room, from the 32 bits in which each of its six numbers is stored: put whole, or not at all.
#![tactic(auto)]

ghost use Rattle.std.specs.Prelude.{◌≡◌, [], ◌∷◌, ◌++◌, ◌+◌, ◌≤◌, ◌<◌, ◌↔◌, IsSome, IsTrue, nat_abs, length, unwrap_or};
ghost use Rattle.text.specs.Code.{digits};
ghost use Rattle.text.specs.Decimal.{decimal};
ghost use Rattle.text.specs.Room.{Measured, Put};
ghost use Rattle.layout.specs.Bytes.{signed};
ghost use Rattle.chart.specs.Numbers.{size_text, metres};
ghost use Rattle.chart.specs.Words.{polygon_word, polygon_end, comma, point_text, triangle_text};
ghost use Rattle.layout.specs.Parts.{triangle_by};
ghost use Rattle.polygons.specs.Code.{pair_of, sign_text, point_of};

// No polygon is longer, whatever 32 bits its numbers have.
const MOST: usize = 118;

// ---- numbers

// The number that 32 bits stand for, without its sign.
fn size_of(v: u32) -> u32
    ensures { (result ≡ nat_abs (signed v)) × (result ≤ 2147483648) }
{
    v.cast_signed().unsigned_abs()
}

// How long its sign is.
fn sign_length(v: u32) -> usize
    ensures { Measured (sign_text (signed v)) result × (result ≤ 1) }
{
    usize::from(v.cast_signed() < 0)
}

// How long so many centimetres are, without a sign.
fn size_length(n: u32) -> usize
    requires { n ≤ 2147483648 }
    ensures { Measured (size_text n) result × (result ≤ 11) }
{
    text::width(n / 100) + 3
}

// How long the text of a number is.
fn number_length(v: u32) -> usize
    ensures { Measured (metres (signed v)) result × (result ≤ 12) }
{
    sign_length(v) + size_length(size_of(v))
}

// Bytes, for which there is room, from a place on; the place behind them. They come by value: of a lent literal the compiled code asks whether it overlaps the room.
fn put_bytes<const N: usize>(room: &mut [u8], at: usize, bytes: [u8; N]) -> usize
    requires { at + N ≤ length room.old }
    ensures { Put room.old at bytes.entry room.new result }
{
    room[at..at + N].copy_from_slice(&bytes);
    at + N
}

// The last digit of w, for which there is room, from a place on; the place behind it.
// Stays beside put_two and put_four: with digits one by one, in a loop, and each polygon measured again a text took 1.6 times the second program's time, and the bar is 1.05 (docs/PERFORMANCE.md, on `wkt`).
fn put_one(room: &mut [u8], at: usize, w: u32) -> usize
    requires { at + 1 ≤ length room.old }
    ensures { Put room.old at (digits 1 w) room.new result }
{
    put_bytes(room, at, [text::digit(w)])
}

// The last two digits as a number of two bytes, tens in the lower, which the compiler stores at once.
// Stays: without this and without the minus put always (put_number) a text took 1.1 times the second program's time, with both 0.93 to 0.98, and the bar is 1.05 (docs/PERFORMANCE.md, on `wkt`).
fn pair_of(w: u32) -> u16
    ensures { result ≡ pair_of w }
{
    let c = w % 100;
    let tens = c / 10;
    (12336 + 256 * c - 2559 * tens) as u16
}

// The last two digits, likewise.
fn put_two(room: &mut [u8], at: usize, w: u32) -> usize
    requires { at + 2 ≤ length room.old }
    ensures { Put room.old at (digits 2 w) room.new result }
{
    put_bytes(room, at, pair_of(w).to_le_bytes())
}

// The last four.
fn put_four(room: &mut [u8], at: usize, w: u32) -> usize
    requires { at + 4 ≤ length room.old }
    ensures { Put room.old at (digits 4 w) room.new result }
{
    let p = put_two(room, at, w / 100);
    put_two(room, p, w)
}

// A number below ten thousand, for which there is room, likewise.
// Stays a ladder: a loop over the digits is one of the two things with which the bar was missed (put_one).
fn put_short(room: &mut [u8], at: usize, w: u32) -> usize
    requires { (w < 10000) × (at + length (decimal w) ≤ length room.old) }
    ensures { Put room.old at (decimal w) room.new result }
{
    if w < 100 {
        if w < 10 {
            return put_one(room, at, w);
        }
        return put_two(room, at, w);
    }
    if w < 1000 {
        let p = put_one(room, at, w / 100);
        return put_two(room, p, w);
    }
    put_four(room, at, w)
}

// Whole metres likewise. No number of a good file has five digits before the point but 10000.
fn put_whole(room: &mut [u8], at: usize, w: u32) -> usize
    requires { (w < 100000000) × (at + length (decimal w) ≤ length room.old) }
    ensures { Put room.old at (decimal w) room.new result }
{
    if w < 10000 {
        return put_short(room, at, w);
    }
    if w == 10000 {
        return put_bytes(room, at, *b"10000");
    }
    let p = put_short(room, at, w / 10000);
    put_four(room, p, w)
}

// So many centimetres likewise: whole metres, the point and two decimals.
fn put_size(room: &mut [u8], at: usize, n: u32) -> usize
    requires { (n ≤ 2147483648) × (at + length (size_text n) ≤ length room.old) }
    ensures { Put room.old at (size_text n) room.new result }
{
    let p = put_whole(room, at, n / 100);
    let q = put_bytes(room, p, *b".");
    put_two(room, q, n)
}

// A number likewise. Where it has no sign, its first digit is put over the minus: so no test of the sign is a branch.
// Stays: a branch on the sign costs more than a byte (docs/DECISIONS.md, 153), and with it and single digits the bar was missed (pair_of).
fn put_number(room: &mut [u8], at: usize, v: u32) -> usize
    requires { at + length (metres (signed v)) ≤ length room.old }
    ensures { Put room.old at (metres (signed v)) room.new result }
{
    let p = at + sign_length(v);
    room[at] = b'-';
    put_size(room, p, size_of(v))
}

// ---- points and polygons

// How long the text of a point is.
// Stays x and y, as `point_of` takes them, here and in put_point and put_next: a struct made of two of the six numbers for each call is no plainer.
fn point_length(x: u32, y: u32) -> usize
    ensures { Measured (point_text (point_of x y)) result × (result ≤ 25) }
{
    number_length(x) + number_length(y) + 1
}

// How long the polygon of a triangle is.
pub fn length_of(six: [u32; 6]) -> usize
    ensures { Measured (triangle_text (triangle_by six)) result × (result ≤ 118) }
{
    let [x0, y0, x1, y1, x2, y2] = six;
    18 + 2 * point_length(x0, y0) + point_length(x1, y1) + point_length(x2, y2)
}

// A point likewise.
fn put_point(room: &mut [u8], at: usize, x: u32, y: u32) -> usize
    requires { at + length (point_text (point_of x y)) ≤ length room.old }
    ensures { Put room.old at (point_text (point_of x y)) room.new result }
{
    let p = put_number(room, at, x);
    let q = put_bytes(room, p, *b" ");
    put_number(room, q, y)
}

// A comma, a space and a point likewise.
fn put_next(room: &mut [u8], at: usize, x: u32, y: u32) -> usize
    requires { at + length (comma ++ point_text (point_of x y)) ≤ length room.old }
    ensures { Put room.old at (comma ++ point_text (point_of x y)) room.new result }
{
    let p = put_bytes(room, at, *b", ");
    put_point(room, p, x, y)
}

// A polygon likewise: the triangle's vertices, and the first again.
fn put_in(room: &mut [u8], at: usize, six: [u32; 6]) -> usize
    requires { at + length (triangle_text (triangle_by six)) ≤ length room.old }
    ensures { Put room.old at (triangle_text (triangle_by six)) room.new result }
{
    let [x0, y0, x1, y1, x2, y2] = six;
    let a = put_bytes(room, at, *b"POLYGON ((");
    let b = put_point(room, a, x0, y0);
    let c = put_next(room, b, x1, y1);
    let d = put_next(room, c, x2, y2);
    let e = put_next(room, d, x0, y0);
    put_bytes(room, e, *b"))")
}

// Whether so many bytes are enough for the polygon of a triangle. It is measured only where there are fewer than any could need. The numbers are lent, since of a lent array it is known that each number has 32 bits.
fn is_enough(left: usize, six: &[u32; 6]) -> bool
    ensures { IsTrue result ↔ (length (triangle_text (triangle_by six.now)) ≤ left) }
{
    MOST <= left || length_of(*six) <= left
}

// Puts the polygon of a triangle, by its six numbers as they are stored, into the room from a place on: the place behind it, or none where it does not fit and nothing is put.
pub fn put(room: &mut [u8], at: usize, six: [u32; 6]) -> Option<usize>
    ensures placed { Put room.old at (triangle_text (triangle_by six)) room.new (unwrap_or result at) }
    ensures fits { IsSome result ↔ (at + length (triangle_text (triangle_by six)) ≤ length room.old) }
{
    let left = room.len().checked_sub(at)?;
    if !is_enough(left, &six) {
        return None;
    }
    Some(put_in(room, at, six))
}
