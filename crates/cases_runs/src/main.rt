// Makes the calls of its standard input, one after the other, and writes what they answer. A line of the input is a letter and behind it words with a space before each: numbers of eight hexadecimal digits, or bytes of two
// digits each. All calls are lent the front of one memory.
//   n BYTE             a run begins: the state is 0 and 0, every byte of the memory is this one
//   s ARRIVED ENDED    the state becomes this one
//   w PLACE BYTES      these bytes are written to the memory from a place on
//   p LENGTH BYTES     a piece, with a buffer of this length
//   r LENGTH COUNT BYTE    a piece that has this byte so many times
//   e LENGTH           an end
//   b PLACE COUNT      the memory's bytes from a place on are written
// A line of the output has number, place, arrived and ended behind a piece and an end, and the state is then the one that was answered; or the bytes that were asked for.
#![tactic(auto)]

use arrival::{Arrival, State};
use std::io;

const MEMORY: usize = 65600;

const LONGEST_PIECE: usize = 70000;

const START: State = State {
    arrived: 0,
    ended: 0,
};

// The number of the word at a place. Words are found by their places: a line with shorter words than it should have is then no error, and its numbers are those that stand there.
fn number_at(line: &[u8], at: usize) -> u64 {
    cases::number_of(cases::until(line, at, b' '))
}

// The last eight digits of a number.
// Stays by hand, as `byte` does: `u32::try_from` refuses a longer number, whose last digits count here.
fn low(n: u64) -> u32 {
    (n % 4294967296) as u32
}

// The last two digits of a number.
fn byte(n: u64) -> u8 {
    (n % 256) as u8
}

// A run: its state, and the memory whose front all calls are lent.
#[derive(Drop)]
struct Run {
    state: State,
    memory: [u8; MEMORY],
}

impl Run {
    // Writes an answer, whose state becomes the run's.
    fn told(&mut self, rt: &impl Print, a: Arrival) -> io::Result<()> {
        println!(rt;
            "{:08x} {:08x} {:08x} {:08x}",
            a.number, a.place, a.arrived, a.ended
        )?;
        self.state = State {
            arrived: a.arrived,
            ended: a.ended,
        };
        Ok(())
    }

    // Lends the memory's first bytes for a piece; a buffer that is longer than the memory is not lent, and nothing is said.
    fn piece(&mut self, rt: &impl Print, bytes: &[u8], size: usize) -> io::Result<()> {
        match self.memory.get_mut(..size) {
            Some(buffer) => {
                let a = arriving::piece(self.state, bytes, buffer);
                self.told(rt, a)
            }
            None => Ok(()),
        }
    }

    fn given_piece(&mut self, rt: &impl Print, word: &[u8], size: usize) -> io::Result<()> {
        let mut bytes = [0u8; 4096];
        let n = cases::bytes_of(word, &mut bytes);
        self.piece(rt, &bytes[..n], size)
    }

    fn filled_piece(&mut self, rt: &impl Print, n: usize, b: u8, size: usize) -> io::Result<()> {
        match [b; LONGEST_PIECE].get(..n) {
            Some(bytes) => self.piece(rt, bytes, size),
            None => Ok(()),
        }
    }

    fn end(&mut self, rt: &impl Print, size: usize) -> io::Result<()> {
        match self.memory.get(..size) {
            Some(buffer) => {
                let a = arriving::end(self.state, buffer);
                self.told(rt, a)
            }
            None => Ok(()),
        }
    }
}

fn touch(memory: &mut [u8], at: usize, word: &[u8]) {
    let mut bytes = [0u8; 4096];
    let n = cases::bytes_of(word, &mut bytes);
    let _ = text::put_bytes(memory, at, &bytes[..n]);
}

// The memory's bytes from a place on, if they are all there.
fn part(memory: &[u8], at: usize, n: usize) -> Option<&[u8]> {
    memory.get(at..)?.get(..n)
}

// Writes as many of them as a line holds.
fn show(rt: &impl Print, memory: &[u8], at: usize, n: usize) -> io::Result<()> {
    let Some(bytes) = part(memory, at, n) else {
        return Ok(());
    };
    let mut digits = [0u8; 4096];
    let k = cases::digits_of(bytes, &mut digits);
    rt.write_all(&digits[..k])?;
    rt.write_all(b"\n")
}

// Does what a line says.
fn step(rt: &impl Print, line: &[u8], run: &mut Run) -> io::Result<()> {
    let Some(letter) = line.first() else {
        return Ok(());
    };
    let first = number_at(line, 2);
    let second = number_at(line, 11);
    match *letter {
        b'n' => {
            run.memory.fill(byte(first));
            run.state = START;
            Ok(())
        }
        b's' => {
            run.state = State {
                arrived: low(first),
                ended: low(second),
            };
            Ok(())
        }
        b'p' => run.given_piece(rt, cases::until(line, 11, b' '), first as usize),
        b'r' => {
            let b = byte(number_at(line, 20));
            run.filled_piece(rt, second as usize, b, first as usize)
        }
        b'e' => run.end(rt, first as usize),
        b'w' => {
            touch(
                &mut run.memory,
                first as usize,
                cases::until(line, 11, b' '),
            );
            Ok(())
        }
        b'b' => show(rt, &run.memory, first as usize, second as usize),
        _ => Ok(()),
    }
}

fn main(rt: HostRuntime) -> io::Result<()> {
    let mut text = [0u8; 131072];
    let n = cases::read_input(&mut rt.stdin(), &mut text)?;
    let mut run = Run {
        state: START,
        memory: [0u8; MEMORY],
    };
    for line in cases::lines(&text[..n]) {
        step(&rt, line, &mut run)?;
    }
    Ok(())
}
