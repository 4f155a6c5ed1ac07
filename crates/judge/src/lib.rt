// The rules that judge the plain numbers of an entry and of a triangle. They know nothing of bytes: crate `footprint` asks them of what it reads in a file.
#![tactic(auto)]

ghost use Rattle.std.specs.Prelude.{◌≡◌, ◌≤◌, pos, false, get_or};
ghost use Rattle.layout.specs.Parts.{triangle_of, triangle_by};
ghost use Rattle.layout.specs.Code.{from_bottom, is_above_top, triangle_above};
ghost use Rattle.layout.specs.Rules.{is_flat, entry_rule, triangle_rule};
ghost use Rattle.layout.specs.Told.{ruled};

use layout::Fault;

// The number that 32 bits stand for, counted from −1,000,000: at most 2,000,000 if it is in range.
// Stays two branches: one `wrapping_add` is no plainer, as it does not show that numbers below zero come first.
#[tactic(auto, unfolding(layout::specs::Code::from_bottom))]
fn from_bottom(v: u32) -> u32
    ensures { result ≡ from_bottom v }
{
    if v < 4293967296 {
        v + 1000000
    } else {
        v - 4293967296
    }
}

// Whether one of six numbers, counted from the lower end, is out of range.
fn is_above_top(six: [u32; 6]) -> bool
    ensures { result ≡ is_above_top six }
{
    six.iter().any(|&z| 2000000 < z)
}

// Twice the area as the cross of two differences, which a triangle in range cannot overflow. Where the numbers are counted from does not matter to it.
fn is_flat(six: [u32; 6]) -> bool
    requires { is_above_top six ≡ false }
    ensures { result ≡ is_flat (triangle_above six) }
{
    // With the sides taken in this order the writer's loop over triangles took fewer instructions (docs/PERFORMANCE.md, the thirteenth landing).
    let [x0, y0, x1, y1, x2, y2] = six;
    let c = x2 as i64 - x0 as i64;
    let d = y2 as i64 - y0 as i64;
    let a = x1 as i64 - x0 as i64;
    let b = y1 as i64 - y0 as i64;
    a * d - b * c == 0
}

// The rule of a triangle, its six numbers given by their 32 bits: 17 before 18.
pub fn triangle_rule(six: [u32; 6]) -> Result<(), Fault>
    ensures { ruled result ≡ triangle_rule (triangle_by six) }
{
    let [x0, y0, x1, y1, x2, y2] = six;
    // Stays six calls: `six.map(from_bottom)` was tried, and what is ensured stayed open.
    let six = [
        from_bottom(x0),
        from_bottom(y0),
        from_bottom(x1),
        from_bottom(y1),
        from_bottom(x2),
        from_bottom(y2),
    ];
    if is_above_top(six) {
        return Err(Fault::OutOfRange);
    }
    if is_flat(six) {
        return Err(Fault::NoArea);
    }
    Ok(())
}

// The rule of an entry, where the entry before ended at `end` and the id was seen in an earlier entry or not: 14 before 16.
#[tactic(auto, unfolding(layout::specs::Rules::entry_rule, layout::specs::Rules::is_bad_entry))]
pub fn entry_rule(e: layout::Entry, end: u32, seen: bool) -> Result<(), Fault>
    ensures { ruled result ≡ entry_rule e end seen }
{
    if e.count == 0 || 2 < e.set || sets::is_wrong_last(e.set, e.last) || e.first != end {
        return Err(Fault::Entry);
    }
    if seen {
        return Err(Fault::SameId);
    }
    Ok(())
}
