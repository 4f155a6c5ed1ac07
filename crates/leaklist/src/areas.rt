// The own area of a recording, from its prepared triangles.
ghost use Rattle.std.specs.Prelude.{◌≡◌, ◌+◌, ◌/◌, ◌≤◌, length};
ghost use Rattle.leaklist.specs.Code.{own_in, asked_in};

// Half the sum of the absolute crosses of n triangles from i on, in this order.
fn area_of(table: &[shapes::Shape], i: usize, n: usize) -> f64
    requires { i + n ≤ length table.now }
    ensures { result ≡ own_in table.now i n }
{
    let mut sum = 0.0;
    for s in &table[i..i + n] {
        sum += floats::turned_if(s.cross < 0.0, s.cross);
    }
    0.5 * sum
}

// The own area of a recording that goes by edition 2. Of any other it is not asked for.
pub(crate) fn asked_area(table: &[shapes::Shape], e: layout::Entry) -> f64
    requires { e.first / 24 + e.count ≤ length table.now }
    ensures { result ≡ asked_in table.now e }
{
    if sets::is_second(e.last) {
        return area_of(table, (e.first / 24) as usize, e.count as usize);
    }
    0.0
}
