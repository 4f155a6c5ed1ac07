// Runs the writer of well-known text on the files of its standard input and writes what it answers. A line of the input has the room's length, four hexadecimal digits, and behind a space each the id, eight digits, and the file's
// bytes, two digits each. Every byte of the room is a point before the call. A line of the output has number, place and length, eight digits each, then the room's bytes.
#![tactic(auto)]

use std::io;

// Writes bytes by their digits, two each.
// Stays a buffer that is written at once: shown by std's formats, or as a text in parts, the bytes of a page took five times and more (docs/DECISIONS.md, 224).
fn write_bytes(rt: &impl Print, bytes: &[u8]) -> io::Result<()> {
    let mut digits = [0u8; 8192];
    let n = cases::digits_of(bytes, &mut digits);
    rt.write_all(&digits[..n])
}

fn answer(rt: &impl Print, file: &[u8], id: u32, room: &mut [u8]) -> io::Result<()> {
    let a = showing::wkt(file, id, room);
    print!(rt; "{:08x} {:08x} {:08x} ", a.number, a.place, a.length)?;
    write_bytes(rt, room)?;
    println!(rt; "")
}

// The case of a line, with the front of a page of points as the room: none where the line asks for more than a page. A word that is not there is as an empty one.
fn run(rt: &impl Print, line: &[u8]) -> io::Result<()> {
    let mut words = line.split(|b| *b == b' ');
    let m = cases::number_of(words.next().unwrap_or(&[])) as usize;
    let id = (cases::number_of(words.next().unwrap_or(&[])) % 4294967296) as u32;
    let mut bytes = [0u8; 2048];
    let n = cases::bytes_of(words.next().unwrap_or(&[]), &mut bytes);
    let mut page = [b'.'; 4096];
    if let Some(room) = page.get_mut(..m) {
        answer(rt, &bytes[..n], id, room)?;
    }
    Ok(())
}

fn main(rt: HostRuntime) -> io::Result<()> {
    let mut text = [0u8; 131072];
    let n = cases::read_input(&mut rt.stdin(), &mut text)?;
    for line in cases::lines(&text[..n]) {
        run(&rt, line)?;
    }
    Ok(())
}
