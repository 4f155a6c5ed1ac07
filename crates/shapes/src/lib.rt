// A triangle made ready once for every pair that it stands in.
#![tactic(auto)]

ghost use Rattle.std.specs.Prelude.{◌≡◌};
ghost use Rattle.shapes.specs.Shapes.{shape_of};

// A triangle made ready for every pair that it stands in: its vertices, the sides a and b from the first vertex to the second and the third, and their cross.
#[derive(Clone, Copy, Debug, PartialEq)]
pub struct Shape {
    pub v0: floats::Position,
    pub v1: floats::Position,
    pub v2: floats::Position,
    pub a: floats::Position,
    pub b: floats::Position,
    pub cross: f64,
}

// The triangle, made ready.
pub fn shape_of(t: floats::Triangle) -> Shape
    ensures { result ≡ shape_of t.a.x t.a.y t.b.x t.b.y t.c.x t.c.y }
{
    let a = t.b - t.a;
    let b = t.c - t.a;
    Shape {
        v0: t.a,
        v1: t.b,
        v2: t.c,
        a,
        b,
        cross: floats::cross_of(a.x, a.y, b.x, b.y),
    }
}
