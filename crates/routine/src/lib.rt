// The routine: from twelve values to the answer of two triangles, with its corners in a lent room; to one of these corners; to what is decided of the pair.
#![tactic(auto)]

mod finding;
mod spots;

ghost use Rattle.std.specs.Prelude.{◌≡◌, None, ◌≤◌, length, take};
ghost use Rattle.walk.specs.Code.{flags_and_ring};
ghost use Rattle.triangles.specs.Answers.{refusal, written};
ghost use Rattle.triangles.specs.Promise.{PairPromise};
ghost use Rattle.triangles.specs.Decision.{decided, Decided, SaidOf};
ghost use Rattle.corners.specs.Promise.{CornerPromise};
ghost use Rattle.shapes.specs.Shapes.{twelve};
ghost use Rattle.routine.specs.Code.{outcome_in, values_of, placed_as, ordered_by, settled_by, found_by, Starts, start_by, rules_by};

use finding::Found;
use front::{Refusal, Start};
use spots::{area_of, corner_in, corners_of};

// The refusal of a place at which the ring has no corner.
const NO_SUCH_CORNER: u32 = 6;

// An answer without a ring: a refusal's number, or 0, and zeros.
fn without_ring(number: u32) -> triangles::Answer
    ensures { result ≡ refusal number }
{
    triangles::Answer {
        number,
        ..triangles::Answer::default()
    }
}

impl Found {
    // The values of the ring's corners, to the front of the room.
    fn write(&self, room: &mut [f64])
        requires { 12 ≤ length room.old }
        ensures { room.new ≡ written (values_of (take self.now.answer.n self.now.corners)) room.old }
    {
        let corners = &self.corners[..self.answer.n as usize];
        for (i, corner) in corners.iter().enumerate() {
            room[2 * i] = corner.x;
            room[2 * i + 1] = corner.y;
        }
    }
}

// From the orders on: ring, corners and area.
// Stays with six parameters: parameters and signs go by value, each as they are, which is their form (docs/PROMISES.md).
#[tactic(auto, using(crate::proofs::Six::ring_fits), unfolding(crate::specs::Code::placed_as))]
fn placed(
    values: &[f64; 12],
    params: [lines::Params; 3],
    signs: [[bool; 3]; 3],
    entry: u16,
    before: [u16; 3],
    found: &mut Option<Found>,
) -> Result<(), Refusal>
    ensures { outcome_in result found.new ≡ placed_as values.now params signs (flags_and_ring signs entry before) }
{
    let ring = walk::flags_and_ring(signs, entry, before);
    // Stays in variables: straight from the fields was tried, and the borrow checker did not cover this function then.
    let places = ring.places;
    let u_in_v = ring.u_in_v;
    let v_in_u = ring.v_in_u;
    let neighbour = ring.neighbour;
    let c = corners_of(values, params, signs, places, ring.n);
    let area = area_of(&c.at[..ring.n]);
    if c.fine & floats::is_finite(area) {
        let answer = triangles::Answer {
            number: 0,
            n: ring.n as u32,
            area,
            u_in_v,
            v_in_u,
            neighbour,
        };
        *found = Some(Found {
            answer,
            places,
            corners: c.at,
        });
        return Ok(());
    }
    Err(Refusal::Overflow)
}

// From the parameters on: the table tells which lines U's edges cross, and the orders along them are decided, all three.
#[tactic(auto, unfolding(crate::specs::Code::ordered_by))]
fn ordered(
    values: &[f64; 12],
    p: lines::Params,
    q: lines::Params,
    r: lines::Params,
    found: &mut Option<Found>,
) -> Result<(), Refusal>
    ensures { outcome_in result found.new ≡ ordered_by values.now p q r }
{
    let s = lines::signs_of(p);
    let t = lines::signs_of(q);
    let u = lines::signs_of(r);
    let signs = [s, t, u];
    let entry = table::entry_of(signs);
    let a = edges::order_of(p, q, s, table::crossed_by(entry, 0));
    let b = edges::order_of(q, r, t, table::crossed_by(entry, 1));
    let c = edges::order_of(p, r, s, table::crossed_by(entry, 2));
    if a.fine & (b.fine & c.fine) {
        return placed(
            values,
            [p, q, r],
            signs,
            entry,
            [a.before, b.before, c.before],
            found,
        );
    }
    Err(Refusal::Overflow)
}

// From d, e and the parameters on.
#[tactic(auto, unfolding(crate::specs::Code::settled_by))]
fn settled(values: &[f64; 12], start: Start, found: &mut Option<Found>) -> Result<(), Refusal>
    ensures { outcome_in result found.new ≡ settled_by values.now start.d start.e start.p start.q start.r }
{
    start.judged(values)?;
    ordered(values, start.p, start.q, start.r, found)
}

// What is found, where nothing was; it stays so where all of U lies beyond a line, which is asked before anything else. Such a pair costs no call, as this
// stands inline in all callers.
#[inline(always)]
#[tactic(auto, unfolding(crate::specs::Code::found_by))]
fn find(values: &[f64; 12], start: Start, found: &mut Option<Found>) -> Result<(), Refusal>
    requires { found.old ≡ None }
    ensures { outcome_in result found.new ≡ found_by values.now start.d start.e start.p start.q start.r }
{
    if start.beyond() {
        return Ok(());
    }
    settled(values, start, found)
}

// What every rule starts from, of two triangles.
fn start_of(values: &[f64; 12]) -> Start
    ensures { Starts values.now result }
{
    let (u, v) = front::pair_of(values);
    let d = floats::cross_from(v.a, v.b, v.c);
    Start {
        d,
        e: floats::cross_from(u.a, u.b, u.c),
        p: lines::params_of(d, v, u.a),
        q: lines::params_of(d, v, u.b),
        r: lines::params_of(d, v, u.c),
    }
}

// Two triangles, U0x, U0y, .. V2y: the answer, with the ring's corners at the front of the room, or a refusal, with the room as it was.
pub fn intersect(values: &[f64], room: &mut [f64]) -> triangles::Answer
    ensures { PairPromise values.now room.old result room.new }
{
    let Some(values) = values.as_array::<12>() else {
        return without_ring(Refusal::Lengths.number());
    };
    if room.len() < 12 {
        return without_ring(Refusal::Lengths.number());
    }
    let mut found = None;
    match find(values, start_of(values), &mut found) {
        Ok(()) => match &found {
            Some(f) => {
                f.write(room);
                f.answer
            }
            None => without_ring(0),
        },
        Err(k) => without_ring(k.number()),
    }
}

// Two triangles, U0x, U0y, .. V2y, and a place in their ring: the corner that stands there, or a refusal's number with zeros.
pub fn corner_at(values: &[f64], place: usize) -> corners::Told
    ensures { CornerPromise values.now place result }
{
    let Some(values) = values.as_array::<12>() else {
        return corners::no_corner(Refusal::Lengths.number());
    };
    let s = start_of(values);
    let mut found = None;
    match find(values, s, &mut found) {
        Ok(()) => {
            let Some(f) = &found else {
                return corners::no_corner(NO_SUCH_CORNER);
            };
            if place < f.answer.n as usize {
                return corners::told_of(corner_in(values, [s.p, s.q, s.r], f.places[place]));
            }
            corners::no_corner(NO_SUCH_CORNER)
        }
        Err(k) => corners::no_corner(k.number()),
    }
}

// What is decided of a pair from d, e and the parameters on.
fn decided_so(values: &[f64; 12], start: Start) -> triangles::Decision
    ensures { result ≡ decided (settled_by values.now start.d start.e start.p start.q start.r).answer }
{
    let mut found = None;
    match settled(values, start, &mut found) {
        Ok(()) => match &found {
            Some(f) => decisions::decision_from(f.answer),
            None => triangles::Decision::Apart,
        },
        Err(k) => triangles::Decision::Refused(k.number()),
    }
}

// What is decided of a pair, from what every rule starts from: apart at once where all of U lies beyond a line.
#[tactic(auto, unfolding(crate::specs::Code::found_by))]
fn decided(values: &[f64; 12], start: Start) -> triangles::Decision
    ensures { result ≡ decided (found_by values.now start.d start.e start.p start.q start.r).answer }
{
    if start.beyond() {
        return triangles::Decision::Apart;
    }
    decided_so(values, start)
}

// Two triangles, U0x, U0y, .. V2y: what is decided of them. Those whose boxes share no point are apart; any others are given to the triangle rules.
pub fn decision(values: &[f64]) -> triangles::Decision
    ensures { Decided values.now result }
{
    if front::is_far(values) {
        return triangles::Decision::Apart;
    }
    let Some(values) = values.as_array::<12>() else {
        return triangles::Decision::Refused(Refusal::Lengths.number());
    };
    decided(values, start_of(values))
}

// The same in numbers: 0 with the kind and the area, or a refusal's number with zeros.
pub fn decide(values: &[f64]) -> triangles::Said
    ensures { SaidOf values.now result }
{
    decisions::said_of(decision(values))
}

// What every rule starts from, of two shapes.
fn start_by(u: shapes::Shape, v: shapes::Shape) -> Start
    ensures { result ≡ start_by u v }
{
    Start {
        d: v.cross,
        e: u.cross,
        p: lines::params_by(v.cross, v.v0, v.a, v.b, u.v0),
        q: lines::params_by(v.cross, v.v0, v.a, v.b, u.v1),
        r: lines::params_by(v.cross, v.v0, v.a, v.b, u.v2),
    }
}

// What the triangle rules decide of two shapes, by their sides and crosses as they stand. Where each was made ready by `shapes::shape_of` it is what the rules
// decide of their twelve values. Boxes are not looked at: the caller has.
pub fn by_rules(u: shapes::Shape, v: shapes::Shape) -> triangles::Decision
    ensures { result ≡ rules_by u v }
{
    let start = start_by(u, v);
    // Before the twelve values are laid down, which most near pairs without a ring then have no need of.
    if start.beyond() {
        return triangles::Decision::Apart;
    }
    let values = [
        u.v0.x, u.v0.y, u.v1.x, u.v1.y, u.v2.x, u.v2.y, v.v0.x, v.v0.y, v.v1.x, v.v1.y, v.v2.x, v
            .v2
            .y,
    ];
    decided_so(&values, start)
}
