// Footprint files: bytes that have the layout, and the check of any others. Whatever else is asked of a file asks it first.
#![tactic(auto)]

mod stages;

ghost use Rattle.std.specs.Prelude.{◌≡◌, ◌+◌, ◌*◌, ◌≤◌, length, IfOk};
ghost use Rattle.layout.specs.Parts.{table_place, count_of};
ghost use Rattle.layout.specs.Verdict.{verdict};
ghost use Rattle.layout.specs.Recordings.{bytes_of};
ghost use Rattle.layout.specs.Promise.{Checked};

use layout::{ENTRY, Entry, Refused, TRAILER, TRIANGLE, Verdict};

// The bytes of a file that is not refused.
#[derive(Clone, Copy)]
pub struct Footprint<'a> {
    bytes: &'a [u8],
    ghost good: { (verdict bytes.now).number ≡ 0 },
}

impl<'a> Footprint<'a> {
    ghost use Rattle.layout.specs.Told.{told};
    ghost use Rattle.footprint.specs.Contents.{contents, entry_in, entries_in, triangles_in};

    // These bytes, if they have the layout; else the refusal of the first row that applies, at that row's place.
    pub fn read(bytes: &'a [u8]) -> Result<Footprint<'a>, Refused>
        ensures kept { IfOk result (λ f. contents f ≡ bytes.now) }
        ensures verdict { Checked bytes.now (told result) }
    {
        let table = stages::trailer(bytes)?;
        stages::entries(bytes, table)?;
        stages::triangles(bytes, table)?;
        Ok(Footprint { bytes })
    }

    pub fn bytes(self) -> &'a [u8]
        ensures { result.now ≡ contents self.entry }
    {
        self.bytes
    }

    // How many recordings there are.
    pub fn count(self) -> usize
        ensures value { result ≡ count_of (contents self.entry) }
        ensures most { result ≤ 64 }
    {
        reading::u32_at(self.bytes, self.bytes.len() - 8) as usize
    }

    // Where the table stands.
    pub fn table_place(self) -> usize
        ensures value { result ≡ table_place (contents self.entry) }
        ensures inside { result + 12 * count_of (contents self.entry) + 12 ≡ length (contents self.entry) }
    {
        reading::u32_at(self.bytes, self.bytes.len() - TRAILER) as usize
    }

    // Entry k of the table, if there is one.
    pub fn entry(self, k: usize) -> Option<Entry>
        ensures { result ≡ entry_in (contents self.entry) k }
    {
        if k < self.count() {
            Some(reading::entry_at(self.bytes, self.table_place() + ENTRY * k))
        } else {
            None
        }
    }

    // The table, entry by entry.
    pub fn entries(self) -> &'a [[u8; 12]]
        ensures { result.now ≡ entries_in (contents self.entry) }
    {
        let (entries, _) = self.bytes[self.table_place()..].as_chunks::<12>();
        &entries[..self.count()]
    }

    // All triangles before the table.
    pub fn triangles(self) -> &'a [[u8; 24]]
        ensures { result.now ≡ triangles_in (contents self.entry) }
    {
        let (triangles, _) = self.bytes[..self.table_place()].as_chunks::<24>();
        triangles
    }

    // The bytes of an entry's triangles, as far as the file has them; of an entry of this file, all.
    pub fn part(self, e: Entry) -> &'a [u8]
        ensures { result.now ≡ bytes_of (contents self.entry) e }
    {
        let rest = self.bytes.get(e.first as usize..).unwrap_or(&[]);
        rest.get(..TRIANGLE * e.count as usize).unwrap_or(rest)
    }
}

// What is said of a file: 0 at 0 if it is good, else the refusal of its first row that applies, at that row's place.
// Stays a number beside a place: `meskelow_check` hands them to C.
pub fn check(file: &[u8]) -> Verdict
    ensures { Checked file.now result }
{
    Footprint::read(file).into()
}
