// Boxes, in an array or in a flat table, four values each: read and put, the box around several of them, and the next that shares a point with a box.
#![tactic(auto)]

ghost use Rattle.std.specs.Prelude.{◌≡◌, ◌+◌, ◌-◌, ◌*◌, ◌/◌, ◌≤◌, ◌<◌, ℕ, max, length, unwrap_or, IfSome};
ghost use Rattle.boxes.specs.declared.Box.{Box};
ghost use Rattle.boxed.specs.Tables.{no_box, box_from, boxes_of, box_in, table_with, box_over, next_near, box_among, around_from, near_from};

// A box without ends, which shares a point with every box.
fn no_box() -> boxes::Box
    ensures { result ≡ no_box }
{
    let none = 0.0 / 0.0;
    boxes::Box {
        left: none,
        right: none,
        bottom: none,
        top: none,
    }
}

// The box whose values begin at a place.
fn box_from(table: &[f64], at: usize) -> boxes::Box
    requires { at + 4 ≤ length table.now }
    ensures { result ≡ box_from table.now at }
{
    boxes::Box {
        left: table[at],
        right: table[at + 1],
        bottom: table[at + 2],
        top: table[at + 3],
    }
}

// Boxes by their numbers, wherever they stand: how many there are, and box k. Beyond the last one each is without ends.
trait Boxes {
    ghost at: { Self → ℕ → Box };

    ghost many: { Self → ℕ };

    fn many(&self) -> usize
        ensures count { result ≡ many self.now }
        ensures beyond { (k : ℕ) → many self.now ≤ k → at self.now k ≡ no_box };

    fn get(&self, k: usize) -> boxes::Box
        requires { k < many self.now }
        ensures { result ≡ at self.now k };
}

// Boxes of four values each, one after the other.
#[derive(Clone, Copy)]
struct Values<'a>(&'a [f64]);

impl<'a> Boxes for Values<'a> {
    ghost at = { λ w. box_in w.0.now };

    ghost many = { λ w. boxes_of w.0.now };

    fn many(&self) -> usize {
        self.0.len() / 4
    }

    fn get(&self, k: usize) -> boxes::Box {
        box_from(self.0, 4 * k)
    }
}

// An array of boxes.
#[derive(Clone, Copy)]
struct Among<'a>(&'a [boxes::Box]);

impl<'a> Boxes for Among<'a> {
    ghost at = { λ w. box_among w.0.now };

    ghost many = { λ w. length w.0.now };

    fn many(&self) -> usize {
        self.0.len()
    }

    fn get(&self, k: usize) -> boxes::Box {
        self.0[k]
    }
}

// Box k; beyond the last one that without ends.
fn box_of<B: Boxes>(from: &B, k: usize) -> boxes::Box
    ensures { result ≡ B.at from.now k }
{
    if k < from.many() {
        return from.get(k);
    }
    no_box()
}

// The box around n boxes, from box j on: the first, widened by each in turn.
fn widened<B: Boxes>(table: &B, j: u32, n: u32) -> boxes::Box
    ensures { result ≡ around_from (B.at table.now) j n }
{
    let first = j as usize;
    let mut sum = box_of(table, first);
    for b in 0..n as usize {
        sum = boxes::around(sum, box_of(table, first + b));
    }
    sum
}

// The first box from one on, before another, that shares a point with b, if there is one. Beyond the last one each does.
fn search<B: Boxes>(table: &B, b: boxes::Box, from: usize, to: usize) -> Option<usize>
    ensures place { unwrap_or result (max from to) ≡ near_from (B.at table.now) b (to - from) from }
    ensures before { IfSome result (λ k. k < to) }
{
    let stop = to.min(table.many());
    for k in from..stop {
        if boxes::share_point(b, table.get(k)) {
            return Some(k);
        }
    }
    let past = stop.max(from);
    if past < to { Some(past) } else { None }
}

// Box k of a table; beyond the last one that without ends.
// Stays of values: docs/PROMISES.md promises it so, and no slice of values can be read as boxes.
pub fn box_at(table: &[f64], k: usize) -> boxes::Box
    ensures { result ≡ box_in table.now k }
{
    box_of(&Values(table), k)
}

// A box as box k of a table; beyond the last one nothing is put.
// Stays of values: likewise.
pub fn put_box(table: &mut [f64], k: usize, b: boxes::Box)
    ensures { table.new ≡ table_with table.old k b }
{
    if k < table.len() / 4 {
        let at = 4 * k;
        table[at] = b.left;
        table[at + 1] = b.right;
        table[at + 2] = b.bottom;
        table[at + 3] = b.top;
    }
}

// The box around n boxes of a table, from box j on: the first, widened by each in turn.
pub fn over(table: &[f64], j: u32, n: u32) -> boxes::Box
    ensures { result ≡ box_over table.now j n }
{
    widened(&Values(table), j, n)
}

// The first box from one on, before another, that shares a point with b; where there is none, that other.
// Stays with that other for none: docs/PROMISES.md promises it so.
pub fn next_near(table: &[f64], b: boxes::Box, from: usize, to: usize) -> usize
    ensures { result ≡ next_near table.now b (to - from) from }
{
    search(&Values(table), b, from, to).unwrap_or(from.max(to))
}

// The box around n boxes of an array, from box j on: the first, widened by each in turn.
pub fn around_from(bounds: &[boxes::Box], j: u32, n: u32) -> boxes::Box
    ensures { result ≡ around_from (box_among bounds.now) j n }
{
    widened(&Among(bounds), j, n)
}

// The first box of an array from one on, before another, that shares a point with b, if there is one. Beyond the last one each does.
pub fn near_from(bounds: &[boxes::Box], b: boxes::Box, from: usize, to: usize) -> Option<usize>
    ensures place { unwrap_or result (max from to) ≡ near_from (box_among bounds.now) b (to - from) from }
    ensures before { IfSome result (λ k. k < to) }
{
    search(&Among(bounds), b, from, to)
}
