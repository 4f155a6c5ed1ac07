// Asks for corners by the lines of its standard input and writes what is told of each. A line of the input has the place and then the values, all as hexadecimal
// digits, of the values' bits, with a space before each value. A line of the output has number, kind, which, edge and line, then t, x and y by their bits.
#![tactic(auto)]

use std::io;

// Of a line's values no more are taken.
const MOST: usize = 32;

fn write_corner(rt: &impl Print, c: corners::Told) -> io::Result<()> {
    let t = cases::bits_of(c.t);
    let x = cases::bits_of(c.x);
    let y = cases::bits_of(c.y);
    print!(rt; "{} {} {} {} {}", c.number, c.kind, c.which, c.edge, c.line)?;
    println!(rt; " {t:016x} {x:016x} {y:016x}")
}

// The case of a line: a place, and values.
fn run(rt: &impl Print, line: &[u8]) -> io::Result<()> {
    let n = line.iter().filter(|b| **b == b' ').count().min(MOST);
    let mut words = line.split(|b| *b == b' ');
    let place = cases::number_of(words.next().unwrap_or(&[])) as usize;
    let mut values = [0.0; MOST];
    for (value, word) in values.iter_mut().zip(words) {
        *value = cases::value_of(cases::number_of(word));
    }
    write_corner(rt, routine::corner_at(&values[..n], place))
}

fn main(rt: HostRuntime) -> io::Result<()> {
    let mut text = [0u8; 131072];
    let n = cases::read_input(&mut rt.stdin(), &mut text)?;
    for line in cases::lines(&text[..n]) {
        run(&rt, line)?;
    }
    Ok(())
}
