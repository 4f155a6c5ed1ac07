// A file that arrives in pieces: a piece goes into the lent buffer behind what has arrived, and at the end the file is judged.
#![tactic(auto)]

ghost use Rattle.std.specs.Prelude.{◌≡◌, ◌+◌, length};
ghost use Rattle.arrival.specs.Calls.{piece, refusal_of, state_again, counted, put_at, judged as judged_of};
ghost use Rattle.arrival.specs.Promise.{CallPromise, EndPromise};
ghost use Rattle.arriving.specs.CallRefusal.{number_of, told};

use arrival::{Arrival, SIZE, State, TOO_MANY};
use layout::{Fault, Refused, Verdict};

// Why a call is refused: the end was said, or the lent buffer has another length than the longest file.
#[derive(Clone, Copy, Debug, PartialEq, Eq)]
enum CallRefusal {
    AfterEnd,
    OtherLength,
}

impl CallRefusal {
    fn number(self) -> u32
        ensures { result ≡ number_of self }
    {
        match self {
            CallRefusal::AfterEnd => 22,
            CallRefusal::OtherLength => 23,
        }
    }
}

// Whether a call is taken, by whether the end was said and by the length of the lent buffer, which is tested first.
#[tactic(auto, unfolding(arrival::specs::Calls::refusal_of))]
fn taken(ended: u32, size: usize) -> Result<(), CallRefusal>
    ensures { told result ≡ refusal_of ended size }
{
    if size != SIZE {
        return Err(CallRefusal::OtherLength);
    }
    if ended != 0 {
        return Err(CallRefusal::AfterEnd);
    }
    Ok(())
}

// A refused call's answer: the state as it was.
fn refused(why: CallRefusal, s: State) -> Arrival
    ensures { result ≡ state_again (number_of why) s }
{
    Arrival {
        number: why.number(),
        place: 0,
        arrived: s.arrived,
        ended: s.ended,
    }
}

// How many have arrived with so many more, as they are counted.
fn count(arrived: u32, more: usize) -> u32
    ensures { result ≡ counted (arrived + more) }
{
    (arrived as usize)
        .saturating_add(more)
        .min(TOO_MANY as usize) as u32
}

// Puts bytes into the buffer from a place on, as many as there is space for.
fn put(buffer: &mut [u8], at: usize, bytes: &[u8])
    ensures { buffer.new ≡ put_at buffer.old at bytes.now }
{
    let size = buffer.len();
    if at < size {
        let left = size - at;
        text::put_bytes(buffer, at, text::front(bytes, left));
    }
}

// What is said of the file, of which so many bytes have arrived.
fn judged(arrived: u32, buffer: &[u8]) -> Verdict
    ensures { result ≡ judged_of arrived buffer.now }
{
    let n = arrived as usize;
    if SIZE < n {
        return Verdict::from(Refused {
            why: Fault::FileLength,
            place: 0,
        });
    }
    footprint::check(text::front(buffer, n))
}

// A piece of the file, which may have no bytes: 0 at 0 and the state behind it, with its bytes in the buffer behind what had arrived, those past the buffer dropped; or 23 or 22 and the state as it was, with the buffer as it was.
pub fn piece(s: State, bytes: &[u8], buffer: &mut [u8]) -> Arrival
    ensures { CallPromise s (piece bytes.now) buffer.old result buffer.new }
{
    if let Err(why) = taken(s.ended, buffer.len()) {
        return refused(why, s);
    }
    let arrived = count(s.arrived, bytes.len());
    put(buffer, s.arrived as usize, bytes);
    Arrival {
        number: 0,
        place: 0,
        arrived,
        ended: 0,
    }
}

// The end of the file: its number and place, as those of the file handed over whole, and the state in which the end was said; or 23 or 22 and the state as it was.
pub fn end(s: State, buffer: &[u8]) -> Arrival
    ensures { EndPromise s buffer.now result }
{
    if let Err(why) = taken(s.ended, buffer.len()) {
        return refused(why, s);
    }
    let v = judged(s.arrived, buffer);
    let arrived = count(s.arrived, 0);
    Arrival {
        number: v.number,
        place: v.place,
        arrived,
        ended: 1,
    }
}
