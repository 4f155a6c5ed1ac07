// Footprint files from lists: the lists are judged whole before the first byte is put, and the file is put whole.
#![tactic(auto)]

ghost use Rattle.std.specs.Prelude.{◌≡◌, ◌+◌, ◌*◌, ◌≤◌, length};
ghost use Rattle.text.specs.Room.{Put};
ghost use Rattle.filing.specs.Given.{given_of, recordings, sum_to};
ghost use Rattle.filing.specs.Lists.{given};
ghost use Rattle.filing.specs.File.{table_bytes, file_of};
ghost use Rattle.filing.specs.Fit.{Fit};
ghost use Rattle.filing.specs.Promise.{WritePromise};
ghost use Rattle.filer.specs.Told.{told};

use filing::Lists;
use layout::{ENTRY, Entry, TRAILER};
use refusing::WriteRefusal;
use text::Written;

// The table, for which there is room, from a place on; the place behind it.
fn put_table(room: &mut [u8], at: usize, lists: Lists<'_>) -> usize
    requires small { 24 * sum_to (given lists) (recordings (given lists)) ≤ 65536 }
    requires fits { at + 12 * length lists.ids.now ≤ length room.old }
    ensures { Put room.old at (table_bytes (given lists.entry)) room.new result }
{
    let mut to = at;
    let mut first = 0;
    for i in 0..lists.ids.len() {
        let e = Entry {
            id: lists.ids[i],
            first,
            count: lists.counts[i],
            set: u32::from(lists.sets[i]),
            last: u32::from(lists.lasts[i]),
        };
        to = storing::put_entry(room, to, e).unwrap();
        first += 24 * e.count;
    }
    to
}

// The file of lists that are not refused, at the front of the room, and its length.
fn put_file(room: &mut [u8], lists: Lists<'_>) -> usize
    requires { Fit (given lists) (length room.old) }
    ensures { Put room.old 0 (file_of (given lists.entry)) room.new result }
{
    let n = lists.ids.len();
    let table = 4 * lists.numbers.len();
    let length = table + ENTRY * n + TRAILER;
    let p = storing::put_numbers(room, lists.numbers).unwrap();
    let q = put_table(room, p, lists);
    storing::put_three(room, q, [table as u32, n as u32, length as u32]).unwrap()
}

// The length of the file of these lists, which is put at the front of the room; or the first refusal that applies, and the room is as it was.
// Stays with five slices, as `write` does.
fn put(
    ids: &[u32],
    counts: &[u32],
    sets: &[u8],
    lasts: &[u8],
    numbers: &[i32],
    room: &mut [u8],
) -> Result<usize, WriteRefusal>
    ensures { WritePromise (given_of ids.now counts.now sets.now lasts.now numbers.now) room.old (told result) room.new }
{
    refusing::refusal(ids, counts, sets, lasts, numbers, room.len())?;
    Ok(put_file(
        room,
        Lists {
            ids,
            counts,
            sets,
            lasts,
            numbers,
        },
    ))
}

// Writes the file of these lists to the front of the room and answers its length, or refuses by the first refusal that applies, and the room is as it was.
// Stays with five slices and a number beside a length: so C hands them in and gets it (meskelow_write).
pub fn write(
    ids: &[u32],
    counts: &[u32],
    sets: &[u8],
    lasts: &[u8],
    numbers: &[i32],
    room: &mut [u8],
) -> Written
    ensures { WritePromise (given_of ids.now counts.now sets.now lasts.now numbers.now) room.old result room.new }
{
    match put(ids, counts, sets, lasts, numbers, room) {
        Ok(length) => Written {
            number: 0,
            place: 0,
            length,
        },
        Err(why) => Written {
            number: why.number(),
            place: 0,
            length: 0,
        },
    }
}
