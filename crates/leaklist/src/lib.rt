// The writer of the leak list. A file is judged once; each of its triangles is prepared once, with its box, and so is the box of each recording; each pair of recordings is counted once; and the room is written to only when the list is known to fit.
#![tactic(auto)]

mod areas;
mod found;
mod framed;
mod prepared;
mod tallies;

ghost use Rattle.std.specs.Prelude.{◌≡◌};
ghost use Rattle.footprint.specs.Contents.{contents};
ghost use Rattle.text.specs.Room.{Put};
ghost use Rattle.listing.specs.Promise.{ListPromise};
ghost use Rattle.leaklist.specs.Code.{told_of};

use footprint::Footprint;
use found::{Found, Night};
use framed::{frame, frame_own, no_bounds, no_own};
use prepared::{no_shapes, prepare};
use tallies::Triangles;

// A good file's list.
fn listed(file: Footprint<'_>, room: &mut [u8]) -> listing::Listed
    ensures { ListPromise (contents file.entry) room.old result room.new }
{
    let bytes = file.bytes();
    let at = file.table_place();
    let mut shapes = no_shapes();
    let shapes = &mut shapes[..at / 24];
    prepare(shapes, bytes);
    let mut bounds = no_bounds();
    let bounds = &mut bounds[..at / 24];
    frame(bounds, shapes);
    let mut own = no_own();
    let own = &mut own[..file.count()];
    frame_own(own, bounds, bytes, at);
    let triangles = Triangles { shapes, bounds };
    let night = Night {
        file: bytes,
        at,
        triangles,
        own,
    };
    let mut found = Found::nothing();
    night.gather(&mut found);
    writing::write_triples(room, &found.triples, found.counts, night.formerly())
}

// The leak list of a file's bytes, to the front of the room, or a refusal, with the room as it was: the file's own, or 7 where the room is shorter than the list.
pub fn leaks(file: &[u8], room: &mut [u8]) -> listing::Listed
    ensures { ListPromise file.now room.old result room.new }
{
    match Footprint::read(file) {
        Ok(good) => listed(good, room),
        Err(refused) => {
            let v = layout::Verdict::from(refused);
            writing::no_list(v.number, v.place)
        }
    }
}

// What is to be said of a file's bytes, at the front of the room, and its length: the list, or the line of its refusal. Where there is no room for either, nothing is put, and the length is 0.
pub fn told(file: &[u8], room: &mut [u8]) -> usize
    ensures { Put room.old 0 (told_of file.now room.old) room.new result }
{
    let a = leaks(file, room);
    // Stays a number: ListPromise and C have the answer of leaks as one struct.
    if a.number != 0 {
        return wording::put_refusal(room, a.number, a.place).unwrap_or(0);
    }
    a.length
}
