// A file that arrives in pieces: how much of it has come, and what is said of a piece or of its end.
#![tactic(auto)]

// The length of the lent buffer, which is that of the longest file.
pub const SIZE: usize = 65536;

// So many have arrived when more than a file may have.
pub const TOO_MANY: u32 = 65537;

// How many bytes have arrived, where 65,537 stands for more than a file may have, and whether the end was said: it was, if the number is not 0. At first both are 0.
// Stays two numbers, with no bool: C hands in and gets back both (meskelow_piece, meskelow_end), and on a refusal any number for the end comes back as it was.
#[derive(Clone, Copy, Debug, PartialEq, Eq)]
pub struct State {
    pub arrived: u32,
    pub ended: u32,
}

// What is said of a piece or of an end, its number and its place, and the state that is handed in next.
// Stays a number beside its place: it is the struct that C gets (meskelow_piece, meskelow_end).
#[repr(C)]
#[derive(Clone, Copy, Debug, PartialEq, Eq)]
pub struct Arrival {
    pub number: u32,
    pub place: u32,
    pub arrived: u32,
    pub ended: u32,
}
