// Numbers and table entries stored in a room, the lowest byte first. Each is put whole or not at all.
#![tactic(auto)]

ghost use Rattle.std.specs.Prelude.{◌≡◌, ◌+◌, ◌*◌, ◌≤◌, ◌↔◌, pos, length, get_or, unwrap_or, IsSome};
ghost use Rattle.text.specs.Room.{Put};
ghost use Rattle.layout.specs.Bytes.{signed};
ghost use Rattle.filing.specs.File.{bits_of, number_bytes, entry_bytes};
ghost use Rattle.storing.specs.Stored.{stored, three_bytes};

use layout::Entry;

// The 32 bits of number j, which stand for it; beyond the end every number counts as 0.
pub fn bits_at(numbers: &[i32], j: usize) -> u32
    ensures { (result ≡ bits_of (get_or numbers.now j (pos 0))) × (signed result ≡ get_or numbers.now j (pos 0)) }
{
    numbers.get(j).copied().unwrap_or(0).cast_unsigned()
}

// Numbers at the front of the room, and the place behind them; None where they do not fit, and nothing is put.
pub fn put_numbers(room: &mut [u8], numbers: &[i32]) -> Option<usize>
    ensures placed { Put room.old 0 (number_bytes numbers.now) room.new (unwrap_or result 0) }
    ensures fits { IsSome result ↔ (4 * length numbers.now ≤ length room.old) }
{
    if room.len() / 4 < numbers.len() {
        return None;
    }
    // Stays with a place counted beside the loop: of what an adapter of `iter_mut` wrote nothing is known afterwards, so chunks by `zip` leave the room open.
    let mut to = 0;
    for z in numbers {
        room[to..to + 4].copy_from_slice(&z.to_le_bytes());
        to += 4;
    }
    Some(to)
}

// A table entry in its twelve bytes from a place on, and the place behind them; None where they do not fit, and nothing is put. Of a count the two lowest bytes are stored, of a set and a last byte the lowest.
pub fn put_entry(room: &mut [u8], at: usize, e: Entry) -> Option<usize>
    ensures placed { Put room.old at (entry_bytes (stored e)) room.new (unwrap_or result at) }
    ensures fits { IsSome result ↔ (at + 12 ≤ length room.old) }
{
    let [a, b, c, d] = e.id.to_le_bytes();
    let [f, g, h, i] = e.first.to_le_bytes();
    let [low, high, _, _] = e.count.to_le_bytes();
    let [set, _, _, _] = e.set.to_le_bytes();
    let [last, _, _, _] = e.last.to_le_bytes();
    text::put_bytes(room, at, &[a, b, c, d, f, g, h, i, low, high, set, last])
}

// Three numbers likewise, in four bytes each.
pub fn put_three(room: &mut [u8], at: usize, three: [u32; 3]) -> Option<usize>
    ensures placed { Put room.old at (three_bytes three) room.new (unwrap_or result at) }
    ensures fits { IsSome result ↔ (at + 12 ≤ length room.old) }
{
    let mut bytes = [0; 12];
    bytes[0..4].copy_from_slice(&three[0].to_le_bytes());
    bytes[4..8].copy_from_slice(&three[1].to_le_bytes());
    bytes[8..12].copy_from_slice(&three[2].to_le_bytes());
    text::put_bytes(room, at, &bytes)
}
