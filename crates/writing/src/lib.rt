// The list of leaks that were found, in a room: measured whole, then put whole, or refused.
#![tactic(auto)]

ghost use Rattle.std.specs.Prelude.{◌≡◌, ◌↔◌, [], map, ◌+◌, ◌*◌, ◌≤◌, length, take, IsSome, IsSomeAnd, unwrap_or};
ghost use Rattle.layout.specs.Verdict.{number_at};
ghost use Rattle.text.specs.Room.{Measured, Put};
ghost use Rattle.listing.specs.Words.{leak_lines, text_of};
ghost use Rattle.listing.specs.Listing.{no_list};
ghost use Rattle.writing.specs.Triples.{leak_of, leaks_in, held, held_in, beside_in, WrittenAs};

use listing::{Counts, Listed};

// A refusal: its number and its place, with zeros.
pub fn no_list(number: u32, place: u32) -> Listed
    ensures { result ≡ (no_list [] (number_at number place)).result }
{
    Listed {
        number,
        place,
        ..Listed::default()
    }
}

// The length of the leak lines of triples, each of two ids and N.
fn lines_length(triples: &[[u32; 3]]) -> usize
    requires { length triples.now ≤ 4096 }
    ensures { Measured (leak_lines (map leak_of triples.now)) result × (result ≤ 20000000000 * length triples.now) }
{
    let mut sum: usize = 0;
    for &[test, train, pairs] in triples {
        sum += wording::line_length(test, train, pairs);
    }
    sum
}

// Those lines, for which there is room, from a place on; the place behind them.
fn put_lines(room: &mut [u8], at: usize, triples: &[[u32; 3]]) -> Option<usize>
    requires { at + length (leak_lines (map leak_of triples.now)) ≤ length room.old }
    ensures { IsSomeAnd result (Put room.old at (leak_lines (map leak_of triples.now)) room.new) }
{
    let mut next = at;
    for &[test, train, n] in triples {
        next = wording::put_line(room, next, test, train, n)?;
    }
    Some(next)
}

// The list of these leaks, with so many pairs of recordings that only touch and so many recordings that were formerly held back, at the front of the room, and its length. Where it does not fit, nothing is put.
fn put_list(room: &mut [u8], triples: &[[u32; 3]], touching: u32, formerly: u32) -> Option<usize>
    requires { length triples.now ≤ 4096 }
    ensures placed { Put room.old 0 (text_of (map leak_of triples.now) touching formerly) room.new (unwrap_or result 0) }
    ensures fits { IsSome result ↔ (length (text_of (map leak_of triples.now) touching formerly) ≤ length room.old) }
{
    let count = triples.len() as u32;
    let first = wording::first_length(count);
    let behind = wording::touching_length(touching);
    let last = wording::formerly_length(formerly);
    let size = first + lines_length(triples) + behind + last;
    if room.len() < size {
        return None;
    }
    let p = wording::put_first(room, count)?;
    let q = put_lines(room, p, triples)?;
    let r = wording::put_touching(room, q, touching)?;
    wording::put_formerly(room, r, formerly)
}

// The list of the leaks that were found, each as two ids and N, of as many as there are and 4,096 at most, with what was counted beside them and how many recordings were formerly held back; or refusal 7 where the room is shorter than the list, and the room as it was.
// Stays a triple for a leak: `write` (docs/PROMISES.md) has numbers, and each three of those are seen as a triple, not as a struct, without a copy.
pub fn write_triples(room: &mut [u8], found: &[[u32; 3]], c: Counts, formerly: u32) -> Listed
    ensures { WrittenAs (map leak_of (take (held found.now c.leaks) found.now)) (beside_in c formerly) room.old result room.new }
{
    let n = (c.leaks as usize).min(found.len().min(4096));
    let Some(length) = put_list(room, &found[..n], c.touching, formerly) else {
        return no_list(7, 0);
    };
    Listed {
        number: 0,
        place: 0,
        length,
        leaks: n as u32,
        touching: c.touching,
        tested: c.tested,
        formerly_held_back: formerly,
    }
}

// The same of numbers, of which each three in turn are a leak.
// Stays beside it: docs/PROMISES.md promises it of any numbers (`writing::write`, `no_second_written`), also of one or two that are left over.
pub fn write(room: &mut [u8], found: &[u32], c: Counts, formerly: u32) -> Listed
    ensures { WrittenAs (leaks_in found.now (held_in found.now c.leaks)) (beside_in c formerly) room.old result room.new }
{
    let (triples, _) = found.as_chunks::<3>();
    write_triples(room, triples, c, formerly)
}
