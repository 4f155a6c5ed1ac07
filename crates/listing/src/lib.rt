// The leak list: its rules, the laws that hold of them, what is kept of two recordings and what is answered.
#![tactic(auto)]

// What is kept of the triangle pairs of a test and a training recording: how many overlap, how many touch, how many were given to the triangle rules, whether
// one was refused, and the sum of the areas of those that overlap, added in the order tested.
#[derive(Clone, Copy, Default)]
pub struct Tally {
    pub overlapping: u32,
    pub touching: u32,
    pub tested: u32,
    pub refused: bool,
    pub area: f64,
}

// What is counted of a file's test recordings, each with all training recordings: how many leaks there are, how many pairs of recordings only touch, and how many triangle pairs were given to the triangle rules.
#[derive(Clone, Copy, Default)]
pub struct Counts {
    pub leaks: u32,
    pub touching: u32,
    pub tested: u32,
}

// What is said of a list: number 0 and place 0, the list's length in bytes, how many leaks it has, how many pairs of recordings only touch, how many
// triangle pairs were given to the triangle rules, and how many recordings were formerly held back; or a refusal's number and place with zeros.
// Stays numbers: `meskelow_leaks` hands it to C.
#[repr(C)]
#[derive(Clone, Copy, Default)]
pub struct Listed {
    pub number: u32,
    pub place: u32,
    pub length: usize,
    pub leaks: u32,
    pub touching: u32,
    pub tested: u32,
    pub formerly_held_back: u32,
}
