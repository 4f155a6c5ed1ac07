// What is decided of a pair of triangles: from its answer, which kind of pair it is, and what is said of it.
#![tactic(auto)]

ghost use Rattle.std.specs.Prelude.{◌≡◌};
ghost use Rattle.triangles.specs.Decision.{decided, overlaps as overlaps_by, touches as touches_by, is_refused, with_area, said};

use triangles::{Answer, Decision, Said};

// An answer as a decision.
// Stays, as a call: docs/PROMISES.md names it.
pub fn decision_from(a: Answer) -> Decision
    ensures { result ≡ decided a }
{
    Decision::from(a)
}

// Whether the two triangles overlap; a pair that is refused does.
pub fn overlaps(d: Decision) -> bool
    ensures { result ≡ overlaps_by d }
{
    matches!(d, Decision::Refused(_) | Decision::Overlapping(_))
}

// Whether they only touch.
pub fn touches(d: Decision) -> bool
    ensures { result ≡ touches_by d }
{
    matches!(d, Decision::Touching)
}

// Whether the pair was refused.
pub fn is_refused(d: Decision) -> bool
    ensures { result ≡ is_refused d }
{
    matches!(d, Decision::Refused(_))
}

// A sum of areas with that of one more pair, if it has one.
pub fn with_area(sum: f64, d: Decision) -> f64
    ensures { result ≡ with_area sum d }
{
    match d {
        Decision::Overlapping(area) => sum + area,
        Decision::Refused(_) | Decision::Touching | Decision::Apart => sum,
    }
}

// A decision in numbers: a refusal's number with zeros, or 0 with the kind and the area.
// Stays, as a call: docs/PROMISES.md names it.
pub fn said_of(d: Decision) -> Said
    ensures { result ≡ said d }
{
    Said::from(d)
}
