// A corner of the ring asked for by its place: its rules, the laws that hold of them, and what is told of it.
#![tactic(auto)]

ghost use Rattle.std.specs.Prelude.{◌≡◌};
ghost use Rattle.corners.specs.Corners.{told, no_corner};

use triangles::{Corner, Kind};

// What is told of a corner: number 0, its kind (0 a vertex of U, 1 a corner of V, 2 a crossing), which vertex or corner it is, or a crossing's edge, line and t, and
// where it stands. What a kind does not have is zero; beside a refusal's number all is.
// Stays numbers: `meskelow_corner_at` hands it to C.
#[repr(C)]
#[derive(Clone, Copy, Debug, Default, PartialEq)]
pub struct Told {
    pub number: u32,
    pub kind: u32,
    pub which: u32,
    pub edge: u32,
    pub line: u32,
    pub t: f64,
    pub x: f64,
    pub y: f64,
}

// A corner in numbers.
impl From<Corner> for Told {
    ghost from_gives = { λ c t. t ≡ told c };

    fn from(c: Corner) -> Told {
        let no_t = 0.0;
        let (kind, which, edge, line, t) = match c.kind {
            Kind::Vertex(i) => (0, i, 0, 0, no_t),
            Kind::Reference(k) => (1, k, 0, 0, no_t),
            Kind::Crossing(e, a, t) => (2, 0, e, a, t),
        };
        Told {
            number: 0,
            kind,
            which,
            edge,
            line,
            t,
            x: c.x,
            y: c.y,
        }
    }
}

// A corner in numbers.
// Stays, as a call: docs/PROMISES.md names it.
pub fn told_of(c: Corner) -> Told
    ensures { result ≡ told c }
{
    Told::from(c)
}

// A refusal: its number, and zeros.
// Stays a number, as `Told` is what C is handed: the promise is of every number.
pub fn no_corner(k: u32) -> Told
    ensures { result ≡ no_corner k }
{
    Told {
        number: k,
        ..Told::default()
    }
}
