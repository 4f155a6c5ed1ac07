// Boxes of a file's triangles and of its recordings.
ghost use Rattle.std.specs.Prelude.{◌≡◌, ◌≤◌, length};
ghost use Rattle.layout.specs.Parts.{table_place};
ghost use Rattle.leaklist.specs.Code.{Framed, Owned};

// No box yet.
const NO_BOX: boxes::Box = boxes::Box {
    left: 0.0,
    right: 0.0,
    bottom: 0.0,
    top: 0.0,
};

// The box of each triangle.
// Stays with a number, no `zip`: after `iter_mut().zip(..)` nothing is known of what was put.
pub(crate) fn frame(bounds: &mut [boxes::Box], table: &[shapes::Shape])
    requires { length bounds.old ≡ length table.now }
    ensures { Framed table.now (length table.now) bounds.new }
{
    for (k, s) in table.iter().enumerate() {
        bounds[k] = boxes::box_of(floats::Triangle {
            a: s.v0,
            b: s.v1,
            c: s.v2,
        });
    }
}

// The own boxes of as many recordings as there is room for, by the boxes of their triangles.
pub(crate) fn frame_own(own: &mut [boxes::Box], bounds: &[boxes::Box], file: &[u8], at: usize)
    requires { (length own.old ≤ 64) × (at ≡ table_place file.now) × (at ≤ 65536) }
    ensures { Owned file.now bounds.now (length own.new) own.new }
{
    for (k, place) in own.iter_mut().enumerate() {
        let e = reading::entry_at(file, at + 12 * k);
        *place = boxed::around_from(bounds, e.first / 24, e.count);
    }
}

// Room for the boxes of as many triangles as a file can have.
pub(crate) fn no_bounds() -> [boxes::Box; layout::MOST_TRIANGLES]
    ensures { 2730 ≡ length result }
{
    [NO_BOX; layout::MOST_TRIANGLES]
}

// And for those of as many recordings.
pub(crate) fn no_own() -> [boxes::Box; layout::MOST_RECORDINGS]
    ensures { 64 ≡ length result }
{
    [NO_BOX; layout::MOST_RECORDINGS]
}
