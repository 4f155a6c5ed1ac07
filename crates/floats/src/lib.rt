// Positions, finite values and the cross, the leaves of every formula.
#![tactic(auto)]

ghost use Rattle.std.specs.Prelude.{◌≡◌, cond};
ghost use Rattle.std.specs.Float.Ieee.{neg};
ghost use Rattle.floats.specs.Finite.{finite};
ghost use Rattle.floats.specs.Numbers.{cross, cross_from};
ghost use Rattle.floats.specs.Way.{f64, given, at, difference};

use std::ops::Sub;

// Where a vertex of U, a corner of V or a corner of the ring stands.
#[derive(Clone, Copy, Debug, PartialEq)]
pub struct Position {
    pub x: f64,
    pub y: f64,
}

// The side from one position to another: component by component, each difference rounded once.
impl Sub for Position {
    type Output = Position;

    ghost sub_gives = { λ to from side. side ≡ difference to from };

    fn sub(self, from: Position) -> Position {
        Position {
            x: self.x - from.x,
            y: self.y - from.y,
        }
    }
}

// A triangle: its three vertices in their order.
#[derive(Clone, Copy, Debug, PartialEq)]
pub struct Triangle {
    pub a: Position,
    pub b: Position,
    pub c: Position,
}

// Whether x is neither NaN nor an infinity.
pub fn is_finite(x: f64) -> bool
    ensures { result ≡ finite x }
{
    x.is_finite()
}

// p·s − q·r, three operations, each rounded once.
pub fn cross_of(p: f64, q: f64, r: f64, s: f64) -> f64
    ensures { result ≡ (cross f64 (given p) (given q) (given r) (given s)).value }
{
    p * s - q * r
}

// The cross of b − a and c − a.
pub fn cross_from(a: Position, b: Position, c: Position) -> f64
    ensures { result ≡ (cross_from f64 (at a) (at b) (at c)).value }
{
    let r = b - a;
    let s = c - a;
    cross_of(r.x, r.y, s.x, s.y)
}

// v with its sign turned, where the test holds.
pub fn turned_if(test: bool, v: f64) -> f64
    ensures { result ≡ cond test (neg v) v }
{
    if test { -v } else { v }
}
