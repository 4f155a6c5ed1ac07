// The triangles of a file, prepared.
ghost use Rattle.std.specs.Prelude.{◌≡◌, ◌+◌, ◌≤◌, length};
ghost use Rattle.layout.specs.Recordings.{f64_at};
ghost use Rattle.leaklist.specs.Code.{Prepared};

use floats::{Position, Triangle};

// The position that is stored from a place on.
fn position_at(file: &[u8], at: usize) -> Position
    requires { at ≤ 65536 }
    ensures { (result.x ≡ f64_at file.now at) × (result.y ≡ f64_at file.now (at + 4)) }
{
    Position {
        x: reading::f64_at(file, at),
        y: reading::f64_at(file, at + 4),
    }
}

// As many triangles of the file as there is room for, prepared.
pub(crate) fn prepare(table: &mut [shapes::Shape], file: &[u8])
    requires { length table.old ≤ 2730 }
    ensures { Prepared file.now (length table.new) table.new }
{
    for (k, place) in table.iter_mut().enumerate() {
        let at = layout::TRIANGLE * k;
        *place = shapes::shape_of(Triangle {
            a: position_at(file, at),
            b: position_at(file, at + 8),
            c: position_at(file, at + 16),
        });
    }
}

// Room for as many triangles as a file can have.
pub(crate) fn no_shapes() -> [shapes::Shape; layout::MOST_TRIANGLES]
    ensures { 2730 ≡ length result }
{
    let nowhere = Position { x: 0.0, y: 0.0 };
    let none = shapes::Shape {
        v0: nowhere,
        v1: nowhere,
        v2: nowhere,
        a: nowhere,
        b: nowhere,
        cross: 0.0,
    };
    [none; layout::MOST_TRIANGLES]
}
