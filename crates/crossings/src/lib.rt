// The fraction and the position of a crossing, between two ends of an edge.
#![tactic(auto)]

ghost use Rattle.std.specs.Prelude.{◌≡◌};
ghost use Rattle.crossings.specs.Crossing.{crossed_on};

// A crossing: t, the position by it, and whether t's denominator is finite.
// Stays a flag beside values: `crossed_on`, which docs/PROMISES.md names, has it, and the routine asks all flags at once.
#[derive(Clone, Copy, Debug, PartialEq)]
pub struct Crossed {
    pub t: f64,
    pub x: f64,
    pub y: f64,
    pub fine: bool,
}

// The crossing between a, which is plus on its line, and b, p and q being the line's parameters at them. t is reckoned from a.
#[tactic(auto, unfolding(crate::specs::Crossing::crossed_on))]
pub fn between(a: floats::Position, b: floats::Position, p: f64, q: f64) -> Crossed
    ensures { result ≡ crossed_on p q a b }
{
    let m = p - q;
    let t = p / m;
    let x = a.x + t * (b.x - a.x);
    let y = a.y + t * (b.y - a.y);
    Crossed {
        t,
        x,
        y,
        fine: floats::is_finite(m),
    }
}
