// Runs the triangle rules on the pairs of its standard input and writes what they answer. A line of the input has the room's length and then the
// values, all as hexadecimal digits of their bits, with a space before each value. A line of the output has number, n, area and nine
// flags, then what is decided of the values, its number, kind and area, and then the room as it is afterwards; value k of the room is lent as 1000 + k.
#![tactic(auto)]

use std::io;

// Of a line's values no more are taken.
const MOST: usize = 32;

// The room as it is lent.
fn lent() -> [f64; 32] {
    let mut room = [0.0; 32];
    for (value, k) in room.iter_mut().zip(1000u32..1032) {
        *value = f64::from(k);
    }
    room
}

fn write_flags(rt: &impl Print, flags: [bool; 3]) -> io::Result<()> {
    for flag in flags {
        print!(rt; "{}", u8::from(flag))?;
    }
    Ok(())
}

fn write_answer(rt: &impl Print, a: triangles::Answer) -> io::Result<()> {
    print!(rt; "{} {} {:016x} ", a.number, a.n, cases::bits_of(a.area))?;
    write_flags(rt, a.u_in_v)?;
    write_flags(rt, a.v_in_u)?;
    write_flags(rt, a.neighbour)
}

fn write_decision(rt: &impl Print, d: triangles::Said) -> io::Result<()> {
    print!(rt; " {} {} {:016x}", d.number, d.kind, cases::bits_of(d.area))
}

// The room, and the end of the line.
fn write_room(rt: &impl Print, room: &[f64]) -> io::Result<()> {
    for value in room {
        print!(rt; " {:016x}", cases::bits_of(*value))?;
    }
    println!(rt; "")
}

// The case of a line: a room's length, and values.
fn run(rt: &impl Print, line: &[u8]) -> io::Result<()> {
    let n = line.iter().filter(|b| **b == b' ').count().min(MOST);
    let mut words = line.split(|b| *b == b' ');
    let length = (cases::number_of(words.next().unwrap_or(&[])) % 32) as usize;
    let mut values = [0.0; MOST];
    for (value, word) in values.iter_mut().zip(words) {
        *value = cases::value_of(cases::number_of(word));
    }
    let mut room = lent();
    write_answer(rt, routine::intersect(&values[..n], &mut room[..length]))?;
    write_decision(rt, routine::decide(&values[..n]))?;
    write_room(rt, &room[..length])
}

fn main(rt: HostRuntime) -> io::Result<()> {
    let mut text = [0u8; 131072];
    let n = cases::read_input(&mut rt.stdin(), &mut text)?;
    for line in cases::lines(&text[..n]) {
        run(&rt, line)?;
    }
    Ok(())
}
