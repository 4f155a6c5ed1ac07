// What is found of two triangles. It is lent to be filled, as each function that handed it back by value would copy it: that takes some 90 instructions a pair more.
ghost use Rattle.std.specs.Prelude.{◌≡◌, ◌≤◌};

// The answer of a pair that is not refused, and the places and positions of its ring's n corners; what is beyond n has no meaning.
// Stays with arrays and a count: the places are the walk's, six by value, which is their form (docs/PROMISES.md), and each place has its position.
#[derive(Clone, Copy)]
pub(crate) struct Found {
    pub(crate) answer: triangles::Answer,
    pub(crate) places: [walk::PlaceCode; 6],
    pub(crate) corners: [floats::Position; 6],
    pub(crate) ghost answered: { answer.number ≡ 0 },
    pub(crate) ghost fits: { answer.n ≤ 6 },
}
