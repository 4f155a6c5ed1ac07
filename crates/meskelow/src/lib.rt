// The functions that programs in other languages call; include/meskelow.h declares them.
#![tactic(auto)]

ghost use Rattle.triangles.specs.Promise.{PairPromise};
ghost use Rattle.triangles.specs.Decision.{SaidOf};
ghost use Rattle.corners.specs.Promise.{CornerPromise};
ghost use Rattle.layout.specs.Promise.{Checked, Recorded};
ghost use Rattle.arrival.specs.Calls.{piece};
ghost use Rattle.arrival.specs.Promise.{CallPromise, EndPromise};
ghost use Rattle.filing.specs.Given.{given_of};
ghost use Rattle.filing.specs.Promise.{WritePromise};
ghost use Rattle.chart.specs.Promise.{ShowPromise};
ghost use Rattle.listing.specs.Promise.{ListPromise};

// Two triangles, U0x, U0y, .. V2y: the answer, with the ring's corners at the front of the room, or a refusal, with the room as it was.
#[unsafe(no_mangle)]
pub extern "C" fn meskelow_intersect(values: &[f64], room: &mut [f64]) -> triangles::Answer
    ensures { PairPromise values.now room.old result room.new }
{
    routine::intersect(values, room)
}

// Two triangles, U0x, U0y, .. V2y: their kind, 0 apart, 1 touching, 2 overlapping, and their area, or a refusal's number with zeros.
#[unsafe(no_mangle)]
pub extern "C" fn meskelow_decide(values: &[f64]) -> triangles::Said
    ensures { SaidOf values.now result }
{
    routine::decide(values)
}

// Two triangles, U0x, U0y, .. V2y, and a place in their ring: the corner that stands there, with its kind, or a refusal's number with zeros.
#[unsafe(no_mangle)]
pub extern "C" fn meskelow_corner_at(values: &[f64], place: usize) -> corners::Told
    ensures { CornerPromise values.now place result }
{
    routine::corner_at(values, place)
}

// A file's bytes: number 0 and place 0 if it has the layout of a footprint file, else the refusal and its place.
#[unsafe(no_mangle)]
pub extern "C" fn meskelow_check(file: &[u8]) -> layout::Verdict
    ensures { Checked file.now result }
{
    footprint::check(file)
}

// Recording k of a file's bytes: its table entry, or a refusal's number and place with zeros.
#[unsafe(no_mangle)]
pub extern "C" fn meskelow_recording(file: &[u8], k: usize) -> layout::Recording
    ensures { Recorded file.now k result }
{
    recordings::recording(file, k)
}

// A piece of a file that arrives, by the state so far: the state behind it, with its bytes in the buffer, or a refusal's number with the state and the buffer as they were.
#[unsafe(no_mangle)]
pub extern "C" fn meskelow_piece(
    arrived: u32,
    ended: u32,
    bytes: &[u8],
    buffer: &mut [u8],
) -> arrival::Arrival
    ensures { CallPromise (record { arrived = arrived; ended = ended }) (piece bytes.now) buffer.old result buffer.new }
{
    arriving::piece(arrival::State { arrived, ended }, bytes, buffer)
}

// The end of a file that arrived: what is said of the file, and the state in which the end was said, or a refusal's number with the state as it was.
#[unsafe(no_mangle)]
pub extern "C" fn meskelow_end(arrived: u32, ended: u32, buffer: &[u8]) -> arrival::Arrival
    ensures { EndPromise (record { arrived = arrived; ended = ended }) buffer.now result }
{
    arriving::end(arrival::State { arrived, ended }, buffer)
}

// Lists of ids, counts, sets and last bytes and the triangles' numbers: the length of their file, with the file at the front of the room, or a refusal's number with zeros, with the room as it was.
#[unsafe(no_mangle)]
pub extern "C" fn meskelow_write(
    ids: &[u32],
    counts: &[u32],
    sets: &[u8],
    lasts: &[u8],
    numbers: &[i32],
    room: &mut [u8],
) -> text::Written
    ensures { WritePromise (given_of ids.now counts.now sets.now lasts.now numbers.now) room.old result room.new }
{
    filer::write(ids, counts, sets, lasts, numbers, room)
}

// The well-known text of the recording of a file's bytes that has the id: its length, with the text at the front of the room, or a refusal's number and place with zeros, with the room as it was.
#[unsafe(no_mangle)]
pub extern "C" fn meskelow_wkt(file: &[u8], id: u32, room: &mut [u8]) -> text::Written
    ensures { ShowPromise file.now id room.old result room.new }
{
    showing::wkt(file, id, room)
}

// The leak list of a file's bytes: its length, the number of its leaks, that of the pairs of recordings that only touch and that of the triangle pairs given to the triangle rules, with the list at the front of the room, or a refusal's number and place with zeros, with the room as it was.
#[unsafe(no_mangle)]
pub extern "C" fn meskelow_leaks(file: &[u8], room: &mut [u8]) -> listing::Listed
    ensures { ListPromise file.now room.old result room.new }
{
    leaklist::leaks(file, room)
}
