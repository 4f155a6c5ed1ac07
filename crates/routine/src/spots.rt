// A ring's corners, and their area.
ghost use Rattle.std.specs.Prelude.{◌≡◌, ◌*◌, ◌<◌, ◌≤◌, length, take, IfSome};
ghost use Rattle.lines.specs.Lines.{start, finish};
ghost use Rattle.walk.specs.Code.{place_of_code};
ghost use Rattle.routine.specs.Code.{position_at, standing, kind_in, meeting_in, spot_of, cross_spot, signs_from, crossed, corners_of, all_fine, area_by};

// A corner of the ring; and whether the denominator of its t, if it has one, is finite.
// Stays a flag beside a value: the flags are gathered by `&` and asked once, with the area, as refusal 4 has one row for all; the must-fail edit of that one test needs it.
#[derive(Clone, Copy)]
pub(crate) struct Spot {
    pub(crate) corner: triangles::Corner,
    pub(crate) fine: bool,
}

// The positions of a ring's corners, and whether all of them are fine.
// Stays a flag beside values, as `Spot` does.
#[derive(Clone, Copy)]
pub(crate) struct Corners {
    pub(crate) at: [floats::Position; 6],
    pub(crate) fine: bool,
}

// The edge of U and the line of V of a crossing.
#[derive(Clone, Copy)]
pub(crate) struct Meeting {
    pub(crate) edge: usize,
    pub(crate) line: usize,
}

// Position k of the input's six, U0, U1, U2, V0, V1, V2.
fn position_at(values: &[f64; 12], k: usize) -> floats::Position
    requires { k < 6 }
    ensures { result ≡ position_at values.now k }
{
    floats::Position {
        x: values[2 * k],
        y: values[2 * k + 1],
    }
}

// A corner of this kind where the input has it.
fn copied(kind: triangles::Kind, p: floats::Position) -> Spot
    ensures { result ≡ standing kind p }
{
    Spot {
        corner: triangles::Corner {
            kind,
            x: p.x,
            y: p.y,
        },
        fine: true,
    }
}

// What stands at a place with a number below 6: a vertex of U or a corner of V.
fn kind_in(code: usize) -> triangles::Kind
    requires { code < 6 }
    ensures { result ≡ kind_in code }
{
    if code < 3 {
        return triangles::Kind::Vertex(code as u32);
    }
    triangles::Kind::Reference((code - 3) as u32)
}

// The crossing between vertex i, which is plus on its line and has the parameters p, and vertex j, with q.
#[tactic(auto, unfolding(crate::specs::Code::cross_spot))]
fn cross_spot(
    values: &[f64; 12],
    m: Meeting,
    i: usize,
    j: usize,
    p: lines::Params,
    q: lines::Params,
) -> Spot
    requires { (m.edge < 256) × (m.line < 3) × (i < 3) × (j < 3) }
    ensures { result ≡ cross_spot values.now m.edge m.line i j p q }
{
    let c = crossings::between(
        position_at(values, i),
        position_at(values, j),
        lines::param_of(p, m.line),
        lines::param_of(q, m.line),
    );
    Spot {
        corner: triangles::Corner {
            kind: triangles::Kind::Crossing(m.edge as u32, m.line as u32, c.t),
            x: c.x,
            y: c.y,
        },
        fine: c.fine,
    }
}

// The crossing that a place's number stands for; none of a vertex of U or a corner of V.
fn meeting_in(place: walk::PlaceCode) -> Option<Meeting>
    ensures value { result ≡ meeting_in place.code }
    ensures within { IfSome result (λ m. (m.edge < 256) × (m.line < 3)) }
{
    let code = place.code as usize;
    if code < 6 {
        return None;
    }
    Some(Meeting {
        edge: (code - 6) / 3,
        line: (code - 6) % 3,
    })
}

// The spot of a crossing. `plus` is the sign on its line of the start of its edge: it is reckoned from the end that is plus.
#[inline(always)]
#[tactic(auto, unfolding(crate::specs::Code::crossed))]
fn crossed(values: &[f64; 12], params: [lines::Params; 3], m: Meeting, plus: bool) -> Spot
    requires { (m.edge < 256) × (m.line < 3) }
    ensures { result ≡ crossed values.now params m plus }
{
    let start = lines::end_of(m.edge, 0);
    let finish = lines::end_of(m.edge, 1);
    let p = params[start];
    let q = params[finish];
    if plus {
        return cross_spot(values, m, start, finish, p, q);
    }
    cross_spot(values, m, finish, start, q, p)
}

// The spot of a place that is no crossing.
fn copied_at(values: &[f64; 12], place: walk::PlaceCode) -> Spot
    requires { place.code < 6 }
    ensures { result ≡ standing (kind_in place.code) (position_at values.now place.code) }
{
    let code = place.code as usize;
    copied(kind_in(code), position_at(values, code))
}

// The spots of the ring's first n places: where they stand.
// Stays with an array and its count: places, signs and parameters go by value, which is their form (docs/PROMISES.md).
pub(crate) fn corners_of(
    values: &[f64; 12],
    params: [lines::Params; 3],
    signs: [[bool; 3]; 3],
    places: [walk::PlaceCode; 6],
    n: usize,
) -> Corners
    requires { n ≤ 6 }
    ensures at { take n result.at ≡ corners_of values.now params signs (take n places) }
    ensures fine { result.fine ≡ all_fine values.now params signs (take n places) }
{
    let mut at = [floats::Position { x: 0.0, y: 0.0 }; 6];
    let mut fine = true;
    for (i, place) in places[..n].iter().enumerate() {
        let spot = match meeting_in(*place) {
            Some(m) => crossed(values, params, m, signs[lines::end_of(m.edge, 0)][m.line]),
            None => copied_at(values, *place),
        };
        at[i] = floats::Position {
            x: spot.corner.x,
            y: spot.corner.y,
        };
        fine = fine & spot.fine;
    }
    Corners { at, fine }
}

// The corner at a place of the ring. Of a crossing one sign is looked at, that of its edge's start on its line.
// Stays apart from `corners_of`: with all nine signs a corner asked for costs 1.1 times an intersection, with one 1.05.
pub(crate) fn corner_in(
    values: &[f64; 12],
    params: [lines::Params; 3],
    place: walk::PlaceCode,
) -> triangles::Corner
    ensures { result ≡ (spot_of values.now params (signs_from params) (place_of_code place.code)).corner }
{
    let spot = match meeting_in(place) {
        Some(m) => {
            let s = lines::signs_of(params[lines::end_of(m.edge, 0)]);
            crossed(values, params, m, s[m.line])
        }
        None => copied_at(values, place),
    };
    spot.corner
}

// The area of a ring's corners.
pub(crate) fn area_of(corners: &[floats::Position]) -> f64
    ensures { result ≡ area_by corners.now }
{
    let mut sum = 0.0;
    for k in 2..corners.len() {
        sum = sum + floats::cross_from(corners[0], corners[k - 1], corners[k]);
    }
    0.5 * floats::turned_if(sum < 0.0, sum)
}
