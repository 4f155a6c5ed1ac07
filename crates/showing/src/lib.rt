// A recording's footprint for the chart viewer: the file is judged, the recording found by its id, its text measured whole, and only then put.
#![tactic(auto)]

ghost use Rattle.std.specs.Prelude.{◌≡◌, ◌++◌, ◌+◌, ◌*◌, ◌<◌, ◌≤◌, ◌↔◌, ◌==◌, find, length, map, IsSome, unwrap_or};
ghost use Rattle.text.specs.Room.{Measured, Put};
ghost use Rattle.layout.specs.Parts.{entry_from};
ghost use Rattle.footprint.specs.Contents.{contents, entries_in};
ghost use Rattle.chart.specs.Words.{comma, others, collection_text};
ghost use Rattle.chart.specs.Promise.{ShowPromise};
ghost use Rattle.showing.specs.Code.{text_at, texts_of};
ghost use Rattle.showing.specs.Told.{said, told};

use footprint::Footprint;

// ---- refusals

// Why no text is put: the file is refused, no recording has the id, or the room is shorter than the text.
#[derive(Clone, Copy, Debug, PartialEq, Eq)]
enum Refusal {
    File(layout::Refused),
    NoRecording,
    NoRoom,
}

impl From<layout::Refused> for Refusal {
    ghost use Rattle.showing.specs.declared.Refusal.TheVariants.{File};

    ghost from_gives = { λ refused refusal. refusal ≡ File refused };

    fn from(refused: layout::Refused) -> Refusal {
        Refusal::File(refused)
    }
}

impl From<Refusal> for text::Written {
    ghost from_gives = { λ refusal written. written ≡ said refusal };

    fn from(refusal: Refusal) -> text::Written {
        let (number, place) = match refusal {
            Refusal::File(refused) => (refused.why.number(), refused.place),
            Refusal::NoRecording => (21, 0),
            Refusal::NoRoom => (20, 0),
        };
        text::Written {
            number,
            place,
            length: 0,
        }
    }
}

// ---- triangles as they are stored

// How long the polygon of a triangle is.
fn polygon_length(bytes: &[u8; 24]) -> usize
    ensures { Measured (text_at bytes.now) result × (result ≤ 118) }
{
    polygons::length_of(reading::six_of(bytes))
}

// Puts that polygon into the room from a place on: the place behind it, or none where it does not fit and nothing is put.
fn put_polygon(room: &mut [u8], to: usize, bytes: &[u8; 24]) -> Option<usize>
    ensures placed { Put room.old to (text_at bytes.now) room.new (unwrap_or result to) }
    ensures fits { IsSome result ↔ (to + length (text_at bytes.now) ≤ length room.old) }
{
    polygons::put(room, to, reading::six_of(bytes))
}

// How long so many polygons are, each behind a comma and a space.
fn others_length(triangles: &[[u8; 24]]) -> usize
    requires { length triangles.now ≤ 65536 }
    ensures { Measured (others (texts_of triangles.now)) result × (result ≤ 120 * length triangles.now) }
{
    let mut sum = 0;
    for bytes in triangles {
        sum += 2 + polygon_length(bytes);
    }
    sum
}

// A comma, a space and a polygon, for which there is room, from a place of the room on; the place behind them.
fn put_other(room: &mut [u8], to: usize, bytes: &[u8; 24]) -> usize
    requires { to + length (comma ++ text_at bytes.now) ≤ length room.old }
    ensures { Put room.old to (comma ++ text_at bytes.now) room.new result }
{
    let p = text::put_bytes(room, to, b", ").unwrap();
    put_polygon(room, p, bytes).unwrap()
}

// So many polygons, each behind a comma and a space, likewise.
fn put_others(room: &mut [u8], to: usize, triangles: &[[u8; 24]]) -> usize
    requires { to + length (others (texts_of triangles.now)) ≤ length room.old }
    ensures { Put room.old to (others (texts_of triangles.now)) room.new result }
{
    let mut next = to;
    for bytes in triangles {
        next = put_other(room, next, bytes);
    }
    next
}

// The text of triangles, of which there is one at least, at the front of the room, and its length; none where it does not fit and nothing is put.
fn put_text(room: &mut [u8], triangles: &[[u8; 24]]) -> Option<usize>
    requires { (0 < length triangles.now) × (length triangles.now ≤ 65536) }
    ensures placed { Put room.old 0 (collection_text (texts_of triangles.now)) room.new (unwrap_or result 0) }
    ensures fits { IsSome result ↔ (length (collection_text (texts_of triangles.now)) ≤ length room.old) }
{
    let (first, rest) = triangles.split_first()?;
    let size = 21 + polygon_length(first) + others_length(rest);
    if room.len() < size {
        return None;
    }
    let a = text::put_bytes(room, 0, b"GEOMETRYCOLLECTION (")?;
    let b = put_polygon(room, a, first)?;
    let c = put_others(room, b, rest);
    text::put_bytes(room, c, b")")
}

// ---- a recording by its id

// The first entry that has the id.
fn entry_with(file: Footprint, id: u32) -> Option<layout::Entry>
    ensures { result ≡ find (λ e. e.id == id) (map (λ bytes. entry_from bytes 0) (entries_in (contents file.entry))) }
{
    file.entries()
        .iter()
        .map(|bytes| reading::entry_at(bytes, 0))
        .find(|e| e.id == id)
}

// The length of the text that was put.
fn shown(file: &[u8], id: u32, room: &mut [u8]) -> Result<usize, Refusal>
    ensures { ShowPromise file.now id room.old (told result) room.new }
{
    let file = Footprint::read(file)?;
    let entry = entry_with(file, id).ok_or(Refusal::NoRecording)?;
    let (triangles, _) = file.part(entry).as_chunks::<24>();
    put_text(room, triangles).ok_or(Refusal::NoRoom)
}

// The well-known text of the recording that has the id, to the front of the room, or a refusal, with the room as it was: the file's own, 21 where no recording has the id, or 20 where the room is shorter than the text.
// Stays a number beside a place and a length: `meskelow_wkt` hands them to C.
pub fn wkt(file: &[u8], id: u32, room: &mut [u8]) -> text::Written
    ensures { ShowPromise file.now id room.old result room.new }
{
    match shown(file, id, room) {
        Ok(length) => text::Written {
            number: 0,
            place: 0,
            length,
        },
        Err(refusal) => refusal.into(),
    }
}
