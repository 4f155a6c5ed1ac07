// The order in which an edge of U meets V's lines. Edges are taken from their lower vertex: p and s are its parameters and signs, q the parameters of
// the higher vertex.
#![tactic(auto)]

ghost use Rattle.std.specs.Prelude.{◌≡◌, cond, ◌<◌};
ghost use Rattle.std.specs.Float.Ieee.{le};
ghost use Rattle.floats.specs.Finite.{nought};
ghost use Rattle.lines.specs.Lines.{lower_end, higher_end};
ghost use Rattle.edges.specs.Code.{tested, seen_first, in_order, around_by, three_by, two_by, order_by};

// By V's corners, as a digit of the table's kind: whether the corner's lower line is met before its upper one, false where the edge does not cross both. And
// whether all pair tests that were computed are finite.
// Stays a flag beside a value: `order_by`, which docs/PROMISES.md names, has it, and the routine asks the flags of three edges at once.
#[derive(Clone, Copy, Debug, PartialEq, Eq)]
pub struct Order {
    pub before: u16,
    pub fine: bool,
}

// What a pair test says: the lower of its lines is met first; and its D is finite.
// Stays a flag beside a value: `tested`, which docs/PROMISES.md names, has it, as `Order` has.
#[derive(Clone, Copy, Debug, PartialEq, Eq)]
pub struct Test {
    first: bool,
    fine: bool,
}

// Whether a pair test says that its lower line is met first: D ≥ 0 where the two signs at its start are the same, D ≤ 0 where they are not.
fn met_first(same: bool, d: f64) -> bool
    ensures { result ≡ cond same (le nought d) (le d nought) }
{
    if same { 0.0 <= d } else { d <= 0.0 }
}

// Three lines met in the order a, b, c, seen from the higher vertex if far.
#[tactic(auto, unfolding(crate::specs::Code::in_order))]
fn in_order(far: bool, a: usize, b: usize, c: usize) -> u16
    ensures { result ≡ in_order far a b c }
{
    let mut before = [false; 3];
    let ab = lines::corner_on(a, b);
    let bc = lines::corner_on(b, c);
    let ac = lines::corner_on(a, c);
    before[ab] = far != (a < b);
    before[bc] = far != (b < c);
    before[ac] = far != (a < c);
    table::digit_of(before)
}

// An edge of U, taken from its lower vertex.
#[derive(Clone, Copy)]
struct Edge {
    p: lines::Params,
    q: lines::Params,
    s: [bool; 3],
}

impl Edge {
    // The pair test of the two lines of V's corner k.
    #[tactic(auto, unfolding(crate::specs::Code::tested))]
    fn pair_test(self, k: usize) -> Test
        ensures { result ≡ tested self.p self.q self.s k }
    {
        let a = lines::line_of(k, 0);
        let b = lines::line_of(k, 1);
        let d = floats::cross_of(
            lines::param_of(self.p, a),
            lines::param_of(self.q, a),
            lines::param_of(self.p, b),
            lines::param_of(self.q, b),
        );
        Test {
            first: met_first(self.s[a] == self.s[b], d),
            fine: floats::is_finite(d),
        }
    }

    // Whether line a is met before line b, seen from the higher vertex if far, else from the lower.
    #[tactic(auto, unfolding(crate::specs::Code::seen_first))]
    fn seen_first(self, far: bool, a: usize, b: usize) -> Test
        ensures { result ≡ seen_first (tested self.p self.q self.s) far a b }
    {
        let t = self.pair_test(lines::corner_on(a, b));
        Test {
            first: far != ((b < a) != t.first),
            fine: t.fine,
        }
    }

    // Three lines crossed, walked from the end with one minus: c is minus there, a < b are the others.
    #[tactic(auto, unfolding(crate::specs::Code::around_by))]
    fn around(self, far: bool, c: usize, a: usize, b: usize) -> Order
        ensures { result ≡ around_by (tested self.p self.q self.s) far c a b }
    {
        let t = self.seen_first(far, a, c);
        if t.first {
            return Order {
                before: in_order(far, a, c, b),
                fine: t.fine,
            };
        }
        let u = self.seen_first(far, b, c);
        if u.first {
            return Order {
                before: in_order(far, b, c, a),
                fine: t.fine & u.fine,
            };
        }
        let v = self.seen_first(far, a, b);
        if v.first {
            return Order {
                before: in_order(far, c, a, b),
                fine: t.fine & (u.fine & v.fine),
            };
        }
        Order {
            before: in_order(far, c, b, a),
            fine: t.fine & (u.fine & v.fine),
        }
    }

    // Three lines crossed. Of an edge's ends the lower has one minus, or else, far, the higher has: there the minus is where the lower has its plus.
    #[tactic(auto, unfolding(crate::specs::Code::three_by))]
    fn three_lines(self) -> Order
        ensures { result ≡ three_by (tested self.p self.q self.s) self.s }
    {
        let s = self.s;
        let far = !((s[0] & s[1]) | ((s[1] & s[2]) | (s[0] & s[2])));
        if s[0] == far {
            return self.around(far, 0, 1, 2);
        }
        if s[1] == far {
            return self.around(far, 1, 0, 2);
        }
        self.around(far, 2, 0, 1)
    }

    // Two lines crossed, those of V's corner k, and line c not. Where c is minus one order only is admissible: the line that is minus at the start is met
    // first, and no pair test is computed.
    #[tactic(auto, unfolding(crate::specs::Code::two_by))]
    fn two_lines(self, k: usize, c: usize) -> Test
        requires { c < 3 }
        ensures { result ≡ two_by (tested self.p self.q self.s) self.s k c }
    {
        if self.s[c] {
            return self.pair_test(k);
        }
        let a = lines::line_of(k, 0);
        Test {
            first: !self.s[a],
            fine: true,
        }
    }
}

// The order along an edge, seen from its lower vertex, by the lines that it crosses, as the table has them.
#[tactic(auto, unfolding(crate::specs::Code::order_by))]
pub fn order_of(p: lines::Params, q: lines::Params, s: [bool; 3], crossed: u16) -> Order
    ensures { result ≡ order_by (tested p q s) s crossed }
{
    let edge = Edge { p, q, s };
    match crossed {
        // lines 0 and 1
        0o6 => {
            let r = edge.two_lines(0, 2);
            Order {
                before: table::digit_of([r.first, false, false]),
                fine: r.fine,
            }
        }
        // lines 1 and 2
        0o3 => {
            let r = edge.two_lines(1, 0);
            Order {
                before: table::digit_of([false, r.first, false]),
                fine: r.fine,
            }
        }
        // lines 0 and 2
        0o5 => {
            let r = edge.two_lines(2, 1);
            Order {
                before: table::digit_of([false, false, r.first]),
                fine: r.fine,
            }
        }
        0o7 => edge.three_lines(),
        _ => Order {
            before: 0,
            fine: true,
        },
    }
}

// Of the two ends of U's edge e the one with the lower number; 0 where there is no such edge.
// Stays one of two, with `higher_end`: docs/PROMISES.md names both, and each is a line.
pub fn lower_end(e: usize) -> usize
    ensures { (result ≡ lower_end e) × (result < 3) }
{
    lines::end_of(e, 0).min(lines::end_of(e, 1))
}

// The one with the higher number; 0 where there is no such edge.
pub fn higher_end(e: usize) -> usize
    ensures { (result ≡ higher_end e) × (result < 3) }
{
    lines::end_of(e, 0).max(lines::end_of(e, 1))
}
