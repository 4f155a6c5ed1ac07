// The footprint file: its layout, its refusals with their places, and what is answered of it.
#![tactic(auto)]

ghost use Rattle.std.specs.Prelude.{◌≡◌};
ghost use Rattle.layout.specs.Told.{fault_number, said, told};
ghost use Rattle.layout.specs.Recordings.{recording_by};

// A file has this many bytes at most.
pub const MOST_BYTES: usize = 65536;

// And this many recordings.
pub const MOST_RECORDINGS: usize = 64;

// The bytes of a triangle, of a table entry, and of the trailer.
pub const TRIANGLE: usize = 24;

pub const ENTRY: usize = 12;

pub const TRAILER: usize = 12;

// The triangles that a file has room for.
pub const MOST_TRIANGLES: usize = 2730;

// Why a footprint file is refused, by the numbers of the refusal table.
#[derive(Clone, Copy, Debug, PartialEq, Eq)]
pub enum Fault {
    FileLength = 11,
    StoredLength = 12,
    Trailer = 13,
    Entry = 14,
    Table = 15,
    SameId = 16,
    OutOfRange = 17,
    NoArea = 18,
}

impl Fault {
    // The number of the refusal.
    pub fn number(self) -> u32
        ensures { result ≡ fault_number self }
    {
        self as u32
    }
}

// A refusal: why, and the place where it was found.
#[derive(Clone, Copy, Debug, PartialEq, Eq)]
pub struct Refused {
    pub why: Fault,
    pub place: u32,
}

// What is said of a file: number 0 and place 0 if it is good, else the refusal's number and the place where it was found.
// Stays numbers: `meskelow_check` hands it to C.
#[repr(C)]
#[derive(Clone, Copy, Debug, PartialEq, Eq)]
pub struct Verdict {
    pub number: u32,
    pub place: u32,
}

impl From<Refused> for Verdict {
    ghost from_gives = { λ r v. v ≡ said r };

    fn from(r: Refused) -> Verdict {
        Verdict {
            number: r.why.number(),
            place: r.place,
        }
    }
}

impl<T: Copy> From<Result<T, Refused>> for Verdict {
    ghost from_gives = { λ r v. v ≡ told r };

    fn from(r: Result<T, Refused>) -> Verdict {
        match r {
            Ok(_) => Verdict {
                number: 0,
                place: 0,
            },
            Err(refused) => Verdict::from(refused),
        }
    }
}

// A table entry, as it is stored.
// Stays numbers: an entry can be stored with any set and any last byte, and refusal 14 speaks of those (`entry_rule`).
#[derive(Clone, Copy, Debug, PartialEq, Eq)]
pub struct Entry {
    pub id: u32,
    pub first: u32,
    pub count: u32,
    pub set: u32,
    pub last: u32,
}

// What is said of a recording: its entry beside number 0 and place 0, or a refusal's number and place with zeros.
// Stays numbers: `meskelow_recording` hands it to C.
#[repr(C)]
#[derive(Clone, Copy, Debug, PartialEq, Eq)]
pub struct Recording {
    pub number: u32,
    pub place: u32,
    pub id: u32,
    pub first: u32,
    pub count: u32,
    pub set: u32,
    pub last: u32,
}

impl From<Entry> for Recording {
    ghost from_gives = { λ e r. r ≡ recording_by e };

    fn from(e: Entry) -> Recording {
        Recording {
            number: 0,
            place: 0,
            id: e.id,
            first: e.first,
            count: e.count,
            set: e.set,
            last: e.last,
        }
    }
}
