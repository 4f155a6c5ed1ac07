// Pairs of prepared triangles: what is kept of them. Those whose boxes share no point are passed over: they add nothing to any count and have no area.
ghost use Rattle.std.specs.Prelude.{◌≡◌, ◌+◌, ◌/◌, ◌≤◌, ◌<◌, length};
ghost use Rattle.std.proofs.Props.{props};
ghost use Rattle.listing.specs.Turns.{folded};
ghost use Rattle.listing.specs.Pairs.{tallied as tallied_by};
ghost use Rattle.boxed.specs.Tables.{box_among, around_from};
ghost use Rattle.leaklist.specs.Code.{AllReady, tallied_near, row_in, tally_in};

// One more pair that was given to the triangle rules, by what they decide.
fn tallied(t: listing::Tally, d: triangles::Decision) -> listing::Tally
    requires { (t.overlapping < 4294967295) × (t.touching < 4294967295) × (t.tested < 4294967295) }
    ensures { (result ≡ tallied_near t d) × (result.overlapping ≤ t.overlapping + 1) × (result.touching ≤ t.touching + 1) × (result.tested ≤ t.tested + 1) }
{
    listing::Tally {
        overlapping: t.overlapping + counting::one_if(decisions::overlaps(d)),
        touching: t.touching + counting::one_if(decisions::touches(d)),
        tested: t.tested + 1,
        refused: t.refused | decisions::is_refused(d),
        area: decisions::with_area(t.area, d),
    }
}

// The triangles of a file, prepared, and the box of each.
// Stays two slices: the search goes along the boxes alone, 32 bytes each (docs/DECISIONS.md 115); a struct of both would have 120.
#[derive(Clone, Copy)]
pub(crate) struct Triangles<'a> {
    pub(crate) shapes: &'a [shapes::Shape],
    pub(crate) bounds: &'a [boxes::Box],
    pub(crate) ghost most: { length shapes.now ≤ 2730 },
    pub(crate) ghost framed: { length bounds.now ≡ length shapes.now },
    pub(crate) ghost ready: { AllReady shapes.now bounds.now } by { Prim.hlevel props },
}

impl<'a> Triangles<'a> {
    // Triangle i with n triangles from j on, counted to t.
    fn row(&self, t: listing::Tally, i: usize, j: usize, n: usize) -> listing::Tally
        requires { (i < length self.now.shapes.now) × (j + n ≤ length self.now.shapes.now) × (t.overlapping + n ≤ 4294967295) × (t.touching + n ≤ 4294967295) × (t.tested + n ≤ 4294967295) }
        ensures { (result ≡ folded tallied_by t (row_in self.now.shapes.now i j n)) × (result.overlapping ≤ t.overlapping + n) × (result.touching ≤ t.touching + n) × (result.tested ≤ t.tested + n) }
    {
        let end = j + n;
        let mut sum = t;
        let mut from = j;
        // Stays a `while`: the search says which is next, and passes over any number of them.
        while let Some(k) = boxed::near_from(self.bounds, self.bounds[i], from, end) {
            sum = tallied(sum, routine::by_rules(self.shapes[i], self.shapes[k]));
            from = k + 1;
        }
        sum
    }

    // Each triangle of recording e with each of recording f, in this order; `whole` is the box around the latter.
    pub(crate) fn tally(
        &self,
        e: layout::Entry,
        f: layout::Entry,
        whole: boxes::Box,
    ) -> listing::Tally
        requires { (e.first / 24 + e.count ≤ length self.now.shapes.now) × (f.first / 24 + f.count ≤ length self.now.shapes.now) × (whole ≡ around_from (box_among self.now.bounds.now) (f.first / 24) f.count) }
        ensures { result ≡ tally_in self.now.shapes.now (e.first / 24) e.count (f.first / 24) f.count }
    {
        let i = (e.first / 24) as usize;
        let j = (f.first / 24) as usize;
        let end = i + e.count as usize;
        let mut sum = listing::Tally::default();
        let mut from = i;
        // Stays a `while`, as in `row`.
        while let Some(a) = boxed::near_from(self.bounds, whole, from, end) {
            sum = self.row(sum, a, j, f.count as usize);
            from = a + 1;
        }
        sum
    }
}
