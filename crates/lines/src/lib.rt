// V's lines, corners and edges by number; a vertex's parameters and their signs.
#![tactic(auto)]

ghost use Rattle.std.specs.Prelude.{◌≡◌, ◌<◌};
ghost use Rattle.floats.specs.Way.{f64, given, at};
ghost use Rattle.lines.specs.Lines.{corner_on, line_of, end_of};
ghost use Rattle.lines.specs.Parameters.{parameter, parameters_by, carried, values_of, side_of, params_by, signs_of};

use floats::{Position, Triangle};

// The corner of V on two lines: row a, column b. The diagonal has no meaning.
const CORNERS: [[usize; 3]; 3] = [[0, 0, 2], [0, 1, 1], [2, 1, 2]];

// The two lines of a corner of V, the lower first.
const LINES: [[usize; 2]; 3] = [[0, 1], [1, 2], [0, 2]];

// The two ends of an edge of U, in the direction of the walk.
const ENDS: [[usize; 2]; 3] = [[0, 1], [1, 2], [2, 0]];

// The three parameters of a vertex of U, carried together: line 0 is x, line 1 is y, line 2 is w.
#[derive(Clone, Copy, Debug, PartialEq)]
pub struct Params {
    pub x: f64,
    pub y: f64,
    pub w: f64,
}

// V's corner on lines a and b; 0 where there is no such line.
// Stays one of three look-ups, as `line_of` and `end_of` do: docs/PROMISES.md names each, with its table.
pub fn corner_on(a: usize, b: usize) -> usize
    ensures { (result ≡ corner_on a b) × (result < 3) }
{
    if a < 3 && b < 3 { CORNERS[a][b] } else { 0 }
}

// Of the two lines through V's corner k the lower, i being 0, or the upper, i being 1; 0 where there is no such.
pub fn line_of(k: usize, i: usize) -> usize
    ensures { (result ≡ line_of k i) × (result < 3) }
{
    if k < 3 && i < 2 { LINES[k][i] } else { 0 }
}

// Of the two vertices of U's edge e its start, i being 0, or its finish, i being 1; 0 where there is no such.
pub fn end_of(e: usize, i: usize) -> usize
    ensures { (result ≡ end_of e i) × (result < 3) }
{
    if e < 3 && i < 2 { ENDS[e][i] } else { 0 }
}

// The side from one position to another.
// Stays, as a call: docs/PROMISES.md names it.
pub fn side(from: Position, to: Position) -> Position
    ensures { result ≡ side_of from to }
{
    to - from
}

// The parameters of the vertex u, with d and V's sides known: a from V0 to V1, and b from V0 to V2.
pub fn params_by(d: f64, v0: Position, a: Position, b: Position, u: Position) -> Params
    ensures { result ≡ params_by d v0 a b u }
{
    let c = u - v0;
    let below = d < 0.0;
    let x = floats::turned_if(below, floats::cross_of(c.x, c.y, b.x, b.y));
    let y = floats::turned_if(below, floats::cross_of(a.x, a.y, c.x, c.y));
    let w = floats::turned_if(below, d) - x - y;
    Params { x, y, w }
}

// The parameters of the vertex u, with d of the triangle v known.
pub fn params_of(d: f64, v: Triangle, u: Position) -> Params
    ensures { result ≡ values_of (parameters_by f64 (given d) (at v.a) (at v.b) (at v.c) (at u)) }
{
    params_by(d, v.a, v.b - v.a, v.c - v.a, u)
}

// The parameter of line a: x of line 0, y of line 1, w of any other.
pub fn param_of(p: Params, a: usize) -> f64
    ensures { result ≡ (parameter (carried p) a).value }
{
    match a {
        0 => p.x,
        1 => p.y,
        _ => p.w,
    }
}

// The vertex's signs on the three lines, plus being true. A vertex that is minus on lines 0 and 1 is plus on line 2, whatever w is.
#[tactic(auto, unfolding(crate::specs::Parameters::signs_of, crate::specs::Parameters::signs, crate::specs::Parameters::last_unseen))]
pub fn signs_of(p: Params) -> [bool; 3]
    ensures { result ≡ signs_of p }
{
    let x = 0.0 <= p.x;
    let y = 0.0 <= p.y;
    let w = 0.0 <= p.w;
    [x, y, !(x | y) | w]
}
