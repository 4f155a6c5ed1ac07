// From lists to a footprint file: what is written, and what is refused.
#![tactic(auto)]

ghost use Rattle.std.specs.Prelude.{◌≡◌, ◌*◌, ◌/◌, length};

// Lists that go together: an id, a count, a set and a last byte for each recording, and the numbers of whole triangles, six for each.
// Stay lists side by side, with no list of structs: so C hands them in (meskelow_write), and there is no heap to copy them to.
#[derive(Clone, Copy)]
pub struct Lists<'a> {
    pub ids: &'a [u32],
    pub counts: &'a [u32],
    pub sets: &'a [u8],
    pub lasts: &'a [u8],
    pub numbers: &'a [i32],
    ghost as_many_counts: { length counts.now ≡ length ids.now },
    ghost as_many_sets: { length sets.now ≡ length ids.now },
    ghost as_many_lasts: { length lasts.now ≡ length ids.now },
    ghost whole_triangles: { 6 * (length numbers.now / 6) ≡ length numbers.now },
}
