// The refusals of lists that are to be written as a footprint file, in their order. The rules of an entry and of a triangle are those that a file is read by, but that nothing is written with the set that is retired.
#![tactic(auto)]

ghost use Rattle.std.specs.Prelude.{◌≡◌, [], ◌/◌, ◌<◌, length, get_or, IfOk};
ghost use Rattle.layout.specs.Parts.{triangle_by};
ghost use Rattle.layout.specs.Rules.{is_seen, triangle_rule};
ghost use Rattle.filing.specs.Given.{given_of, recordings, triangle_in};
ghost use Rattle.filing.specs.Lists.{given};
ghost use Rattle.filing.specs.Refusals.{ids_before, number_if, or_else, first_from, new_entry_rule, is_unequal, entry_number, is_wrong_sum, triangle_number, is_too_many, has_no_room, refusal as refusal_of};
ghost use Rattle.layout.specs.Told.{fault_number};
ghost use Rattle.refusing.specs.Told.{IsOfRule, refusal_number, told};

use filing::Lists;
use layout::{ENTRY, Entry, Fault, MOST_BYTES, MOST_RECORDINGS, MOST_TRIANGLES, TRAILER, TRIANGLE};

// Why lists are not written, by the numbers of the refusal table. Some of these mean other things here than of a file that is read.
#[derive(Clone, Copy, Debug, PartialEq, Eq)]
pub enum WriteRefusal {
    TooMany = 13,
    Entry = 14,
    Unequal = 15,
    SameId = 16,
    OutOfRange = 17,
    NoArea = 18,
    NoRoom = 19,
}

impl WriteRefusal {
    // The number of the refusal.
    pub fn number(self) -> u32
        ensures { result ≡ refusal_number self }
    {
        self as u32
    }
}

// 15 at once: the lists of recordings differ in length, or a triangle is broken off.
fn lists_of<'a>(
    ids: &'a [u32],
    counts: &'a [u32],
    sets: &'a [u8],
    lasts: &'a [u8],
    numbers: &'a [i32],
) -> Result<Lists<'a>, WriteRefusal>
    ensures same { IfOk result (λ l. given l ≡ given_of ids.now counts.now sets.now lasts.now numbers.now) }
    ensures number { told result ≡ number_if (is_unequal (given_of ids.now counts.now sets.now lasts.now numbers.now)) 15 }
{
    if counts.len() != ids.len()
        || sets.len() != ids.len()
        || lasts.len() != ids.len()
        || numbers.len() % 6 != 0
    {
        return Err(WriteRefusal::Unequal);
    }
    Ok(Lists {
        ids,
        counts,
        sets,
        lasts,
        numbers,
    })
}

// Whether one of the first i ids is id i. All of them are compared, whether one was seen or not: so several are compared at once in the compiled code.
fn is_seen(ids: &[u32], i: usize) -> bool
    requires { i < length ids.now }
    ensures { result ≡ is_seen (get_or ids.now i 0) (ids_before ids.now i) }
{
    let id = ids[i];
    ids[..i]
        .iter()
        .fold(false, |seen, &other| (id == other) | seen)
}

// The reader's reason against an entry or a triangle, which is the writer's too.
fn reason(why: Fault) -> WriteRefusal
    requires { IsOfRule why }
    ensures { refusal_number result ≡ fault_number why }
{
    match why {
        Fault::Entry => WriteRefusal::Entry,
        Fault::SameId => WriteRefusal::SameId,
        Fault::OutOfRange => WriteRefusal::OutOfRange,
        _ => WriteRefusal::NoArea,
    }
}

// The rule of an entry that begins where the one before ends: 14 before 16.
fn entry_rule(e: Entry, seen: bool) -> Result<(), WriteRefusal>
    ensures { told result ≡ new_entry_rule e e.first seen }
{
    // The set that is retired, and those that there are not.
    if 1 < e.set {
        return Err(WriteRefusal::Entry);
    }
    judge::entry_rule(e, e.first, seen).map_err(reason)
}

// 14 and 16 of each recording in turn. Where its entry begins does not matter to the rule, so it is put at 0.
fn entries(lists: Lists<'_>) -> Result<(), WriteRefusal>
    ensures { told result ≡ first_from (entry_number (given lists.entry)) (recordings (given lists.entry)) 0 }
{
    for i in 0..lists.ids.len() {
        let e = Entry {
            id: lists.ids[i],
            first: 0,
            count: lists.counts[i],
            set: u32::from(lists.sets[i]),
            last: u32::from(lists.lasts[i]),
        };
        entry_rule(e, is_seen(lists.ids, i))?;
    }
    Ok(())
}

// 15 where the counts do not add up to the triangles. What is left is counted down, so no sum can wrap.
fn adds_up(lists: Lists<'_>) -> Result<(), WriteRefusal>
    ensures { told result ≡ number_if (is_wrong_sum (given lists.entry)) 15 }
{
    let mut left = lists.numbers.len() / 6;
    for &count in lists.counts {
        left = left
            .checked_sub(count as usize)
            .ok_or(WriteRefusal::Unequal)?;
    }
    if left == 0 {
        Ok(())
    } else {
        Err(WriteRefusal::Unequal)
    }
}

// The 32 bits of six numbers, which stand for them.
fn bits(six: [i32; 6]) -> [u32; 6]
    ensures { triangle_by result ≡ triangle_in (given_of [] [] [] [] six) 0 }
{
    six.map(|z| z.cast_unsigned())
}

// The rule of a triangle: 17 before 18.
fn triangle_rule(six: [i32; 6]) -> Result<(), WriteRefusal>
    ensures { told result ≡ triangle_rule (triangle_in (given_of [] [] [] [] six) 0) }
{
    judge::triangle_rule(bits(six)).map_err(reason)
}

// 17 and 18 of each triangle in turn. A function of its own in the compiled code too: beside the lists its loop has three registers too few.
#[inline(never)]
fn triangles(numbers: &[i32]) -> Result<(), WriteRefusal>
    ensures { told result ≡ first_from (triangle_number (given_of [] [] [] [] numbers.now)) (length numbers.now / 6) 0 }
{
    for six in numbers.as_chunks::<6>().0 {
        triangle_rule(*six)?;
    }
    Ok(())
}

// 13 and 19, with a room of so many bytes.
fn at_last(lists: Lists<'_>, room: usize) -> Result<(), WriteRefusal>
    ensures { told result ≡ or_else (number_if (is_too_many (given lists.entry)) 13) (number_if (has_no_room (given lists.entry) room) 19) }
{
    let recordings = lists.ids.len();
    let triangles = lists.numbers.len() / 6;
    if MOST_RECORDINGS < recordings {
        return Err(WriteRefusal::TooMany);
    }
    // With more triangles the file passes 65,536 bytes, and its length need not be computed.
    if MOST_TRIANGLES < triangles {
        return Err(WriteRefusal::NoRoom);
    }
    let length = TRIANGLE * triangles + ENTRY * recordings + TRAILER;
    if room.min(MOST_BYTES) < length {
        return Err(WriteRefusal::NoRoom);
    }
    Ok(())
}

// The first refusal of these lists that applies, with a room of so many bytes.
// Stays with five slices: so C hands them in (meskelow_write), of any lengths.
pub fn refusal(
    ids: &[u32],
    counts: &[u32],
    sets: &[u8],
    lasts: &[u8],
    numbers: &[i32],
    room: usize,
) -> Result<(), WriteRefusal>
    ensures { told result ≡ refusal_of (given_of ids.now counts.now sets.now lasts.now numbers.now) room }
{
    let lists = lists_of(ids, counts, sets, lasts, numbers)?;
    entries(lists)?;
    adds_up(lists)?;
    triangles(lists.numbers)?;
    at_last(lists, room)
}
