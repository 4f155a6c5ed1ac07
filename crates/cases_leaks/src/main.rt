// Runs the writer of the leak list on the files of its standard input and writes what it answers. A line of the input has the room's length, four hexadecimal digits, and behind a space the file's bytes, two digits
// each. Every byte of the room is a point before the call. A line of the output has number, place, length, leaks, touching, tested and formerly held back, eight digits each, then the room's bytes.
#![tactic(auto)]

use std::io;

// Writes bytes by their digits, two each.
// Stays a buffer that is written at once: shown by std's formats, or as a text in parts, the bytes of a page took five times and more (docs/DECISIONS.md, 224).
fn write_bytes(rt: &impl Print, bytes: &[u8]) -> io::Result<()> {
    let mut digits = [0u8; 2048];
    let n = cases::digits_of(bytes, &mut digits);
    rt.write_all(&digits[..n])
}

// One case: a file, and a room.
fn answer(rt: &impl Print, file: &[u8], room: &mut [u8]) -> io::Result<()> {
    let a = leaklist::leaks(file, room);
    print!(rt;
        "{:08x} {:08x} {:08x} {:08x} ",
        a.number, a.place, a.length, a.leaks
    )?;
    print!(rt;
        "{:08x} {:08x} {:08x} ",
        a.touching, a.tested, a.formerly_held_back
    )?;
    write_bytes(rt, room)?;
    println!(rt; "")
}

// The case of a line, whose file is laid in the room: none where the line has no file, or asks for more than a page of points.
fn run(rt: &impl Print, line: &[u8], room: &mut [u8]) -> io::Result<()> {
    let mut words = line.split(|b| *b == b' ');
    let mut page = [b'.'; 1024];
    if let (Some(head), Some(file)) = (words.next(), words.next()) {
        let n = cases::bytes_of(file, room);
        if let Some(lent) = page.get_mut(..cases::number_of(head) as usize) {
            answer(rt, &room[..n], lent)?;
        }
    }
    Ok(())
}

fn main(rt: HostRuntime) -> io::Result<()> {
    let mut text = [0u8; 131072];
    let mut room = [0u8; 2048];
    let n = cases::read_input(&mut rt.stdin(), &mut text)?;
    for line in cases::lines(&text[..n]) {
        run(&rt, line, &mut room)?;
    }
    Ok(())
}
