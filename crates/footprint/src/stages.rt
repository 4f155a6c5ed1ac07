// The stages of a file's verdict: the trailer, the entries of the table, the triangles. An entry and a triangle are read as arrays of their own length: no test of it is left in the compiled code.
ghost use Rattle.std.specs.Prelude.{◌≡◌, ◌+◌, ◌*◌, ◌≤◌, nat_eq, IfOk};
ghost use Rattle.std.specs.List.{list_any};
ghost use Rattle.layout.specs.Bytes.{u32_at};
ghost use Rattle.layout.specs.Verdict.{first_of};
ghost use Rattle.layout.specs.Stages.{trailer_rows, table_rows, triangle_rows};
ghost use Rattle.layout.specs.Told.{told};
ghost use Rattle.footprint.specs.Fits.{Fits};

use layout::{ENTRY, Fault, MOST_BYTES, MOST_RECORDINGS, Refused, TRAILER, TRIANGLE};

// Where the table stands and how many entries it has, as the trailer says.
#[derive(Clone, Copy)]
pub(crate) struct Table {
    pub(crate) place: usize,
    pub(crate) count: usize,
}

// Refusals 11, 12 and 13.
pub(crate) fn trailer(file: &[u8]) -> Result<Table, Refused>
    ensures verdict { told result ≡ first_of file.now (trailer_rows file.now) }
    ensures fits { IfOk result (λ t. Fits file.now t.place t.count) }
{
    let n = file.len();
    if n < TRAILER || MOST_BYTES < n {
        return Err(refused(Fault::FileLength, 0));
    }
    if reading::u32_at(file, n - 4) as usize != n {
        return Err(refused(Fault::StoredLength, 0));
    }
    let place = reading::u32_at(file, n - TRAILER) as usize;
    let count = reading::u32_at(file, n - 8) as usize;
    // In 64 bits, as in 32 the sum can wrap.
    if MOST_RECORDINGS < count || place + ENTRY * count + TRAILER != n {
        return Err(refused(Fault::Trailer, n - TRAILER));
    }
    Ok(Table { place, count })
}

fn refused(why: Fault, place: usize) -> Refused
    requires { place ≤ 65536 }
    ensures { result ≡ record { why = why; place = place } }
{
    Refused {
        why,
        place: place as u32,
    }
}

// Whether one of these entries has this id.
fn is_seen(entries: &[[u8; 12]], id: u32) -> bool
    ensures { result ≡ list_any (λ bytes. nat_eq id (u32_at bytes 0)) entries.now }
{
    entries.iter().any(|bytes| id == reading::u32_at(bytes, 0))
}

// Refusals 14 and 16 of each entry in turn, then 15.
pub(crate) fn entries(file: &[u8], table: Table) -> Result<(), Refused>
    requires { Fits file.now table.place table.count }
    ensures { told result ≡ first_of file.now (table_rows file.now) }
{
    let (entries, _) = file[table.place..].as_chunks::<12>();
    let mut end: u32 = 0;
    for i in 0..table.count {
        let at = table.place + ENTRY * i;
        let e = reading::entry_at(&entries[i], 0);
        let seen = is_seen(&entries[..i], e.id);
        // Stays `if let`, as in `triangles`: `map_err(..)?` was tried, and each goal then speaks through the closure's generated names, which answers may not cite.
        if let Err(why) = judge::entry_rule(e, end, seen) {
            return Err(refused(why, at));
        }
        end = end + 24 * e.count;
    }
    if end as usize != table.place {
        return Err(refused(Fault::Table, table.place));
    }
    Ok(())
}

// Refusals 17 and 18 of each triangle in turn.
pub(crate) fn triangles(file: &[u8], table: Table) -> Result<(), Refused>
    requires { Fits file.now table.place table.count }
    ensures { told result ≡ first_of file.now (triangle_rows file.now) }
{
    let (triangles, _) = file[..table.place].as_chunks::<24>();
    for (k, bytes) in triangles.iter().enumerate() {
        if let Err(why) = judge::triangle_rule(reading::six_of(bytes)) {
            return Err(refused(why, TRIANGLE * k));
        }
    }
    Ok(())
}
