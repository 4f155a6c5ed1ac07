// Upright boxes around triangles, and whether two of them share a point.
#![tactic(auto)]

ghost use Rattle.std.specs.Prelude.{◌≡◌};
ghost use Rattle.boxes.specs.Boxes.{lesser as lesser_of, greater as greater_of, box_of, around as around_both, share_point};

// An upright box: its ends on both axes, which belong to it.
#[derive(Clone, Copy, Debug, PartialEq)]
pub struct Box {
    pub left: f64,
    pub right: f64,
    pub bottom: f64,
    pub top: f64,
}

// The lesser of two values.
// Stays, and so does `greater`: of a NaN `f64::min` takes the other value, and of −0.0 and 0.0 either, and the box would have other bits.
fn lesser(a: f64, b: f64) -> f64
    ensures { result ≡ lesser_of a b }
{
    if b < a { b } else { a }
}

// The greater of two values.
fn greater(a: f64, b: f64) -> f64
    ensures { result ≡ greater_of a b }
{
    if a < b { b } else { a }
}

// The box of a triangle.
#[tactic(auto, unfolding(crate::specs::Boxes::box_of))]
pub fn box_of(t: floats::Triangle) -> Box
    ensures { result ≡ box_of t.a.x t.a.y t.b.x t.b.y t.c.x t.c.y }
{
    Box {
        left: lesser(lesser(t.a.x, t.b.x), t.c.x),
        right: greater(greater(t.a.x, t.b.x), t.c.x),
        bottom: lesser(lesser(t.a.y, t.b.y), t.c.y),
        top: greater(greater(t.a.y, t.b.y), t.c.y),
    }
}

// The box around two boxes.
#[tactic(auto, unfolding(crate::specs::Boxes::around))]
pub fn around(a: Box, b: Box) -> Box
    ensures { result ≡ around_both a b }
{
    Box {
        left: lesser(a.left, b.left),
        right: greater(a.right, b.right),
        bottom: lesser(a.bottom, b.bottom),
        top: greater(a.top, b.top),
    }
}

// Whether two boxes share a point.
pub fn share_point(a: Box, b: Box) -> bool
    ensures { result ≡ share_point a b }
{
    let parted = (a.right < b.left)
        | ((b.right < a.left) | ((a.top < b.bottom) | (b.top < a.bottom)));
    !parted
}
