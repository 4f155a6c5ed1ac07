// What is kept of the triangle pairs of a test and a training recording, and what it makes of the two: whether they leak, by the edition of the test recording, and whether they only touch.
#![tactic(auto)]

ghost use Rattle.std.specs.Prelude.{◌≡◌, ◌≤◌};
ghost use Rattle.floats.specs.Lists.{once};
ghost use Rattle.listing.specs.Pairs.{leak_by_first, leak_by_second, leak as leak_by, only_touch};

// Whether two recordings of which this is kept leak by edition 1.
fn leak_by_first(t: listing::Tally) -> bool
    ensures { result ≡ leak_by_first t }
{
    0 < t.overlapping
}

// And by edition 2, where the test recording has this own area.
fn leak_by_second(own: f64, t: listing::Tally) -> bool
    ensures { result ≡ leak_by_second own t }
{
    t.refused | (own < 100.0 * t.area)
}

// Whether they leak, where the test recording has this last byte and this own area.
// Stays a number: docs/PROMISES.md has it of a last byte, which an entry can have of any value.
pub fn leak(last: u32, own: f64, t: listing::Tally) -> bool
    ensures { result ≡ leak_by last own t }
{
    if sets::is_second(last) {
        return leak_by_second(own, t);
    }
    leak_by_first(t)
}

// Whether they only touch.
pub fn only_touch(t: listing::Tally) -> bool
    ensures { result ≡ only_touch t }
{
    (t.overlapping == 0) & (0 < t.touching)
}

// How much a test adds to a count.
pub fn one_if(test: bool) -> u32
    ensures { (result ≡ once test) × (result ≤ 1) }
{
    u32::from(test)
}
