// Runs the reader on the files of its standard input and writes what it answers. A line of the input has a recording's number, sixteen hexadecimal digits, and behind a space the file's
// bytes, two digits each. A line of the output has number and place of the check, then of the recording number, place, id, first, count, set and last, eight digits each, then the part's
// bytes, and each of its coordinates by the sixteen digits of its double.
#![tactic(auto)]

use std::io;

// Writes bytes by their digits, two each.
// Stays a buffer that is written at once: shown by std's formats, or as a text in parts, the bytes of a page took five times and more (docs/DECISIONS.md, 224).
fn write_bytes(rt: &impl Print, bytes: &[u8]) -> io::Result<()> {
    let mut digits = [0u8; 8192];
    let n = cases::digits_of(bytes, &mut digits);
    rt.write_all(&digits[..n])
}

fn write_coordinates(rt: &impl Print, part: &[u8]) -> io::Result<()> {
    for bytes in part.as_chunks::<4>().0 {
        print!(rt; " {:016x}", cases::bits_of(reading::f64_at(bytes, 0)))?;
    }
    Ok(())
}

// One case: a file, and the number of a recording.
fn answer(rt: &impl Print, file: &[u8], k: usize) -> io::Result<()> {
    let v = footprint::check(file);
    let r = recordings::recording(file, k);
    let part = recordings::part(file, k);
    print!(rt;
        "{:08x} {:08x} {:08x} {:08x} ",
        v.number, v.place, r.number, r.place
    )?;
    print!(rt;
        "{:08x} {:08x} {:08x} {:08x} {:08x} ",
        r.id, r.first, r.count, r.set, r.last
    )?;
    write_bytes(rt, part)?;
    write_coordinates(rt, part)?;
    println!(rt; "")
}

// The case of a line, whose file is laid in the room: none where the line has no file.
fn run(rt: &impl Print, line: &[u8], room: &mut [u8]) -> io::Result<()> {
    let mut words = line.split(|b| *b == b' ');
    if let (Some(head), Some(file)) = (words.next(), words.next()) {
        let n = cases::bytes_of(file, room);
        answer(rt, &room[..n], cases::number_of(head) as usize)?;
    }
    Ok(())
}

fn main(rt: HostRuntime) -> io::Result<()> {
    let mut text = [0u8; 131072];
    let mut room = [0u8; 4096];
    let n = cases::read_input(&mut rt.stdin(), &mut text)?;
    for line in cases::lines(&text[..n]) {
        run(&rt, line, &mut room)?;
    }
    Ok(())
}
