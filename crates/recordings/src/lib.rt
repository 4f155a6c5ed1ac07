// The recordings of a footprint file and their parts.
#![tactic(auto)]

ghost use Rattle.std.specs.Prelude.{◌≡◌};
ghost use Rattle.layout.specs.Recordings.{recording_of, part_of};
ghost use Rattle.layout.specs.Promise.{Recorded, Parted};
ghost use Rattle.recordings.specs.Found.{no_recording_by, recorded, parted};
ghost use Rattle.recordings.specs.declared.Missing.TheVariants.{File};

use footprint::Footprint;
use layout::{Entry, Recording, Refused};

// Why there is no recording k: the file is refused, or it has no such recording.
#[derive(Clone, Copy)]
enum Missing {
    File(Refused),
    NoSuch,
}

impl From<Refused> for Missing {
    ghost from_gives = { λ r m. m ≡ File r };

    fn from(refused: Refused) -> Missing {
        Missing::File(refused)
    }
}

// A refusal's number and place, all else zero; 10 at 0 where there is no such recording.
impl From<Missing> for Recording {
    ghost from_gives = { λ m r. r ≡ no_recording_by m };

    fn from(m: Missing) -> Recording {
        let (number, place) = match m {
            Missing::File(r) => (r.why.number(), r.place),
            Missing::NoSuch => (10, 0),
        };
        Recording {
            number,
            place,
            id: 0,
            first: 0,
            count: 0,
            set: 0,
            last: 0,
        }
    }
}

// A file that is not refused, and its entry k.
fn found(file: &[u8], k: usize) -> Result<(Footprint<'_>, Entry), Missing>
    ensures recording { recorded result ≡ recording_of file.now k }
    ensures part { parted result ≡ part_of file.now k }
{
    let footprint = Footprint::read(file)?;
    let e = footprint.entry(k).ok_or(Missing::NoSuch)?;
    Ok((footprint, e))
}

// Recording k of a file: its entry, or the file's own refusal, or 10 at 0 where there is no such recording.
// Stays a number beside an entry: `meskelow_recording` hands them to C.
pub fn recording(file: &[u8], k: usize) -> Recording
    ensures { Recorded file.now k result }
{
    match found(file, k) {
        Ok((_, e)) => e.into(),
        Err(missing) => missing.into(),
    }
}

// The triangles of recording k, as that part of the file's bytes; no bytes where `recording` refuses.
pub fn part(file: &[u8], k: usize) -> &[u8]
    ensures { Parted file.now k result.now }
{
    match found(file, k) {
        Ok((footprint, e)) => footprint.part(e),
        Err(_) => &[],
    }
}
