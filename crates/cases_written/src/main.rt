// Runs the writer of footprint files on the lists of its standard input and writes what it answers. A line of the input has the room's length, four hexadecimal digits, and behind a space each the ids, the counts, the sets, the last bytes and the
// numbers as bytes, two digits each, the lowest byte of a number first; an empty list is an empty word. Every byte of the room is a point before the call. A line of the output has number, place and length, eight digits each, then the room's bytes.
#![tactic(auto)]

ghost use Rattle.std.specs.Prelude.{◌≡◌, ◌≤◌, length};

use std::io;

// Of a list no more are taken.
const MOST: usize = 128;

// Of the triangles' numbers no more are taken.
const MOST_NUMBERS: usize = 1024;

// The lists of a line.
#[derive(Drop)]
struct Lists<'a> {
    ids: &'a [u32],
    counts: &'a [u32],
    sets: &'a [u8],
    lasts: &'a [u8],
    numbers: &'a [i32],
}

// Writes bytes by their digits, two each.
// Stays a buffer that is written at once: shown by std's formats, or as a text in parts, the bytes of a page took five times and more (docs/DECISIONS.md, 224).
fn write_bytes(rt: &impl Print, bytes: &[u8]) -> io::Result<()> {
    let mut digits = [0u8; 8192];
    let n = cases::digits_of(bytes, &mut digits);
    rt.write_all(&digits[..n])
}

fn answer(rt: &impl Print, lists: &Lists, room: &mut [u8]) -> io::Result<()> {
    let a = filer::write(
        lists.ids,
        lists.counts,
        lists.sets,
        lists.lasts,
        lists.numbers,
        room,
    );
    print!(rt; "{:08x} {:08x} {:08x} ", a.number, a.place, a.length)?;
    write_bytes(rt, room)?;
    println!(rt; "")
}

// The numbers of a word's bytes, each read from four, at the front of a list; how many.
fn numbers_of<T: Copy, F: Fn(&[u8]) -> T>(word: &[u8], list: &mut [T], read: F) -> usize
    requires pre { (f : _) (x : _) → F.pre f x }
    ensures { (result ≤ length list.old) × (length list.new ≡ length list.old) }
{
    let mut bytes = [0u8; 4096];
    let n = cases::bytes_of(word, &mut bytes);
    for (number, four) in list.iter_mut().zip(bytes[..n].chunks_exact(4)) {
        *number = read(four);
    }
    (n / 4).min(list.len())
}

// The case of a line, with the front of a page of points as the room: none where the line asks for more than a page. A word that is not there is as an empty one.
fn run(rt: &impl Print, line: &[u8]) -> io::Result<()> {
    let mut words = line.split(|b| *b == b' ');
    let m = cases::number_of(words.next().unwrap_or(&[])) as usize;
    let mut ids = [0u32; MOST];
    let n = numbers_of(
        words.next().unwrap_or(&[]),
        &mut ids,
        |b| reading::u32_at(b, 0),
    );
    let ids = &ids[..n];
    let mut counts = [0u32; MOST];
    let n = numbers_of(
        words.next().unwrap_or(&[]),
        &mut counts,
        |b| reading::u32_at(b, 0),
    );
    let counts = &counts[..n];
    let mut sets = [0u8; MOST];
    let n = cases::bytes_of(words.next().unwrap_or(&[]), &mut sets);
    let sets = &sets[..n];
    let mut lasts = [0u8; MOST];
    let n = cases::bytes_of(words.next().unwrap_or(&[]), &mut lasts);
    let lasts = &lasts[..n];
    let mut numbers = [0i32; MOST_NUMBERS];
    let n = numbers_of(
        words.next().unwrap_or(&[]),
        &mut numbers,
        |b| reading::i32_at(b, 0),
    );
    let numbers = &numbers[..n];
    let mut page = [b'.'; 4096];
    if let Some(room) = page.get_mut(..m) {
        answer(
            rt,
            &Lists {
                ids,
                counts,
                sets,
                lasts,
                numbers,
            },
            room,
        )?;
    }
    Ok(())
}

fn main(rt: HostRuntime) -> io::Result<()> {
    let mut text = [0u8; 131072];
    let n = cases::read_input(&mut rt.stdin(), &mut text)?;
    for line in cases::lines(&text[..n]) {
        run(&rt, line)?;
    }
    Ok(())
}
