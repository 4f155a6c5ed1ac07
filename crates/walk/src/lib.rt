// Flags and ring of two triangles, from the signs of U's vertices, their entry in the table and the orders along U's edges. Where U's edges are treated at once, a
// number has an octal digit for each, edge 0's first, and a digit three truth values, as in the table.
#![tactic(auto)]

ghost use Rattle.std.specs.Prelude.{◌≡◌, ◌<◌, ◌≤◌};
ghost use Rattle.walk.specs.Code.{at_corner, edges_tell, lower_signs, begun, pushed, line_of_digit, is_on_line, cornered, gap, entering, leaving, along_edge, closing, inside_of, neighbours_of, walk_of, flags_and_ring, beyond_a_line};

// A place of the ring, by number, which fits a byte: U's vertices are 0, 1, 2, V's corners 3, 4, 5, and from 6 on each edge of U has three crossings, by line.
// Stays a number: `flags_and_ring` and `is_ring`, which docs/PROMISES.md names, have the ring's places by number, six by value.
#[derive(Clone, Copy, Debug, PartialEq, Eq)]
pub struct PlaceCode {
    pub code: u8,
}

// The ring's first n places, and the nine flags.
// Stays an array with its count, as in `Walk`: six places by value are the ring's form (docs/PROMISES.md).
#[derive(Clone, Copy, Debug, PartialEq, Eq)]
pub struct Ring {
    pub places: [PlaceCode; 6],
    pub n: usize,
    pub u_in_v: [bool; 3],
    pub v_in_u: [bool; 3],
    pub neighbour: [bool; 3],
}

// What U's edges tell: which of their crossings lie on V's edges, by line; and their part in the flags of V's corners, by corner: whether an edge crosses the
// corner's lower line on the plus side of the upper one.
#[derive(Clone, Copy)]
struct Edges {
    on: u16,
    beside: u16,
}

// The ring so far; the line by which V was left and not entered again yet, and the line by which it was entered before it was ever left.
#[derive(Clone, Copy)]
struct Walk {
    places: [PlaceCode; 6],
    n: usize,
    left: Option<u8>,
    first: Option<u8>,
}

// Nothing met yet.
const BEGUN: Walk = Walk {
    places: [PlaceCode { code: 0 }; 6],
    n: 0,
    left: None,
    first: None,
};

// The last truth values of the digits, put where the digit of V's corners has the corner on lines a and b.
#[tactic(auto, unfolding(crate::specs::Code::at_corner))]
fn at_corner(m: u16, a: usize, b: usize) -> u16
    ensures { result ≡ at_corner m a b }
{
    m << (2 - lines::corner_on(a, b))
}

// What the edges tell, from the signs at their lower ends, the lines that they cross, which are the last three digits of the entry, and their orders by corners. At the crossing of one line an edge's sign on
// another is that at its higher end if the other was crossed before, and that at its lower end if not. All is done at the last truth value of each digit, 0o111.
#[tactic(auto, unfolding(crate::specs::Code::edges_tell))]
fn edges_tell(signs: u16, crossed: u16, before: u16) -> Edges
    ensures { result ≡ edges_tell signs crossed before }
{
    let x = (crossed / 4) & 0o111;
    let y = (crossed / 2) & 0o111;
    let w = crossed & 0o111;
    let sign_x = (signs / 4) & 0o111;
    let sign_y = (signs / 2) & 0o111;
    let sign_w = signs & 0o111;
    let x_before_y = (before / 4) & 0o111;
    let y_before_w = (before / 2) & 0o111;
    let x_before_w = before & 0o111;
    let x_on_y = sign_y ^ (y & (x_before_y ^ 0o111));
    let x_on_w = sign_w ^ (w & (x_before_w ^ 0o111));
    let y_on_x = sign_x ^ (x & x_before_y);
    let y_on_w = sign_w ^ (w & (y_before_w ^ 0o111));
    let w_on_x = sign_x ^ (x & x_before_w);
    let w_on_y = sign_y ^ (y & y_before_w);
    Edges {
        on: ((x & (x_on_y & x_on_w)) << 2)
            | (((y & (y_on_x & y_on_w)) << 1) | (w & (w_on_x & w_on_y))),
        beside: at_corner(x & x_on_y, 0, 1)
            | (at_corner(y & y_on_w, 1, 2) | at_corner(x & x_on_w, 0, 2)),
    }
}

// The signs at the lower ends of U's edges, from which their orders are seen, put together as those of an index are.
#[tactic(auto, unfolding(crate::specs::Code::lower_signs))]
fn lower_signs(signs: [[bool; 3]; 3]) -> u16
    ensures { result ≡ lower_signs signs }
{
    table::index_of([
        signs[edges::lower_end(0)],
        signs[edges::lower_end(1)],
        signs[edges::lower_end(2)],
    ])
}

// The line of a digit that has one.
#[tactic(auto, unfolding(crate::specs::Code::line_of_digit))]
fn line_of_digit(m: u16) -> u8
    ensures { (result ≡ line_of_digit m) × (result ≤ 2) }
{
    match m {
        0o4 => 0,
        0o2 => 1,
        _ => 2,
    }
}

// Whether V's corner k lies on line a.
#[tactic(auto, unfolding(crate::specs::Code::is_on_line))]
fn on_line(k: usize, a: u8) -> bool
    ensures { result ≡ is_on_line k a }
{
    let line = usize::from(a);
    (lines::line_of(k, 0) == line) | (lines::line_of(k, 1) == line)
}

impl Walk {
    // One more place, where the test holds and there is room.
    #[tactic(auto, unfolding(crate::specs::Code::pushed))]
    fn push(self, test: bool, code: u8) -> Walk
        ensures { result ≡ pushed self test code }
    {
        if test & (self.n < 6) {
            let mut v = self;
            v.places[self.n] = PlaceCode { code };
            v.n = self.n + 1;
            return v;
        }
        self
    }

    // V's corners that are in U, a digit, after V was left by line a: first those on it.
    #[tactic(auto, unfolding(crate::specs::Code::cornered))]
    fn corners(self, inside: u16, a: u8) -> Walk
        ensures { result ≡ cornered self inside a }
    {
        let k = table::flags_of(inside);
        let x = on_line(0, a);
        let y = on_line(1, a);
        let z = on_line(2, a);
        let w0 = self.push(k[0] & x, 3);
        let w1 = w0.push(k[1] & y, 4);
        let w2 = w1.push(k[2] & z, 5);
        let w3 = w2.push(k[0] & !x, 3);
        let w4 = w3.push(k[1] & !y, 4);
        w4.push(k[2] & !z, 5)
    }

    // Between the crossing of the line `left`, where V was left, and that of the line `by`, where it is entered: V's corners, if any are in U and the lines are not the same.
    // Always inlined: as a call it takes 7 instructions more a pair.
    #[tactic(auto, unfolding(crate::specs::Code::gap))]
    #[inline(always)]
    fn gap(self, inside: u16, left: u8, by: Option<u8>) -> Walk
        ensures { result ≡ gap self inside left by }
    {
        if (inside != 0) & (by != Some(left)) {
            return self.corners(inside, left);
        }
        self
    }

    // The crossing of edge e where V is entered, by the line of the digit m, if it has one. Right before it stand those of V's corners, if any are in U, that belong
    // between it and the crossing by which V was left.
    #[tactic(auto, unfolding(crate::specs::Code::entering, crate::specs::Code::entered))]
    fn enter(self, inside: u16, e: u8, m: u16) -> Walk
        requires { e < 3 }
        ensures { result ≡ entering self inside e m }
    {
        if m == 0 {
            return self;
        }
        let a = line_of_digit(m);
        let code = 6 + 3 * e + a;
        match self.left {
            None => Walk {
                first: Some(a),
                ..self.push(true, code)
            },
            Some(left) => Walk {
                left: None,
                ..self.gap(inside, left, Some(a)).push(true, code)
            },
        }
    }

    // The crossing of edge e where V is left, by the line of the digit m, if it has one.
    #[tactic(auto, unfolding(crate::specs::Code::leaving))]
    fn leave(self, e: u8, m: u16) -> Walk
        requires { e < 3 }
        ensures { result ≡ leaving self e m }
    {
        if m == 0 {
            return self;
        }
        let a = line_of_digit(m);
        Walk {
            left: Some(a),
            ..self.push(true, 6 + 3 * e + a)
        }
    }

    // Along edge e, which starts with the signs s and has crossings on V's edges of the lines `on`: its start, if that is in V, then the crossing where V is
    // entered, then the one where it is left. V is entered where the start is minus, and left where it is plus, by one line each at most.
    // Stays with an edge's number below 3, as `enter` and `leave` do: an enum of edges would be turned into that number at each place.
    #[tactic(auto, unfolding(crate::specs::Code::along_edge))]
    fn along_edge(self, inside: u16, e: u8, is_in: bool, s: u16, on: u16) -> Walk
        requires { e < 3 }
        ensures { result ≡ along_edge self inside e is_in s on }
    {
        let v = self.push(is_in, e);
        if on == 0 {
            return v;
        }
        v.enter(inside, e, on & (s ^ 0o7)).leave(e, on & s)
    }

    // The end of the walk. Where nothing was met the ring is V's corners, if they are in U. Else the walk goes on at its beginning: V was left, and the
    // line by which it is entered next is the first.
    #[tactic(auto, unfolding(crate::specs::Code::closing, crate::specs::Code::closed))]
    fn close(self, inside: u16) -> Walk
        ensures { result ≡ closing self inside }
    {
        if self.n == 0 {
            let all = inside == 0o7;
            return self.push(all, 3).push(all, 4).push(all, 5);
        }
        match self.left {
            Some(left) => self.gap(inside, left, self.first),
            None => self,
        }
    }
}

// Which of V's corners are in U, from what the edges tell: a corner is, if one alone of its lower line's two crossings is on the plus side of its
// upper line.
#[tactic(auto, unfolding(crate::specs::Code::inside_of))]
fn inside_of(beside: u16) -> u16
    ensures { result ≡ inside_of beside }
{
    (beside ^ ((beside / 8) ^ (beside / 64))) % 8
}

// V's edges that have a crossing on them, or at one end a corner that is in U: the ends of an edge are the corners that its line has with the two others.
#[tactic(auto, unfolding(crate::specs::Code::neighbours_of))]
fn neighbours_of(on: u16, inside: [bool; 3]) -> [bool; 3]
    ensures { result ≡ neighbours_of on inside }
{
    let xy = lines::corner_on(0, 1);
    let yw = lines::corner_on(1, 2);
    let xw = lines::corner_on(0, 2);
    let met = table::flags_of(on | ((on / 8) | (on / 64)));
    let x = met[0] | (inside[xy] | inside[xw]);
    let y = met[1] | (inside[xy] | inside[yw]);
    let w = met[2] | (inside[xw] | inside[yw]);
    [x, y, w]
}

// The walk along the three edges, each from its start, and its end.
#[tactic(auto, unfolding(crate::specs::Code::walk_of, crate::specs::Code::begun))]
fn walk_of(signs: [[bool; 3]; 3], u_in_v: [bool; 3], on: u16, inside: u16) -> Walk
    ensures { result ≡ walk_of signs u_in_v on inside }
{
    let i = lines::end_of(0, 0);
    let j = lines::end_of(1, 0);
    let k = lines::end_of(2, 0);
    let w0 = BEGUN.along_edge(inside, 0, u_in_v[i], table::digit_of(signs[i]), on / 64);
    let w1 = w0.along_edge(inside, 1, u_in_v[j], table::digit_of(signs[j]), on / 8 % 8);
    let w2 = w1.along_edge(inside, 2, u_in_v[k], table::digit_of(signs[k]), on % 8);
    w2.close(inside)
}

// Flags and ring, of the signs of U's three vertices, of their entry in the table, and of the orders along U's three edges, each seen from its lower vertex, by V's corners.
#[tactic(auto, unfolding(crate::specs::Code::flags_and_ring))]
pub fn flags_and_ring(signs: [[bool; 3]; 3], entry: u16, before: [u16; 3]) -> Ring
    ensures { result ≡ flags_and_ring signs entry before }
{
    let edges = edges_tell(
        lower_signs(signs),
        entry,
        (before[0] << 6) | ((before[1] << 3) | before[2]),
    );
    let on = edges.on;
    let inside = inside_of(edges.beside);
    let u_in_v = table::vertices_in(entry);
    let v_in_u = table::flags_of(inside);
    let w = walk_of(signs, u_in_v, on, inside);
    // (a literal takes no array straight from a field)
    let places = w.places;
    Ring {
        places,
        n: w.n,
        u_in_v,
        v_in_u,
        neighbour: neighbours_of(on, v_in_u),
    }
}

// Whether one of V's lines has all three vertices of U on its minus side. Then no pair test is computed, and there is neither a flag nor a ring.
pub fn beyond_a_line(signs: [[bool; 3]; 3]) -> bool
    ensures { result ≡ beyond_a_line signs }
{
    let x = signs[0][0] | (signs[1][0] | signs[2][0]);
    let y = signs[0][1] | (signs[1][1] | signs[2][1]);
    let w = signs[0][2] | (signs[1][2] | signs[2][2]);
    !(x & (y & w))
}
