// What is told before the orders along edges: which pairs are far, the rows of the refusals from the coordinates to the parameters, and the pairs without a ring.
#![tactic(auto)]

ghost use Rattle.std.specs.Prelude.{◌≡◌, ◌≤◌};
ghost use Rattle.floats.specs.Lists.{all};
ghost use Rattle.floats.specs.Finite.{finite};
ghost use Rattle.front.specs.Front.{far_by, front_by, clear_by, beyond_by, number_by, number, number_told, triangle_from};

// Why two triangles have no answer, by the number that is told.
#[derive(Clone, Copy, Debug, PartialEq, Eq)]
pub enum Refusal {
    Lengths = 1,
    NotFinite = 2,
    FlatV = 3,
    Overflow = 4,
    FlatU = 5,
}

impl Refusal {
    // The refusal's number.
    pub fn number(self) -> u32
        ensures { result ≡ number self }
    {
        self as u32
    }
}

// Whether no value is NaN or an infinity. No value ends the search early: a fold has no branch.
fn all_finite(values: &[f64]) -> bool
    ensures { result ≡ all finite values.now }
{
    values
        .iter()
        .fold(true, |so_far, value| so_far & floats::is_finite(*value))
}

// The triangle whose six values stand from k on.
fn triangle_from(values: &[f64; 12], k: usize) -> floats::Triangle
    requires { k ≤ 6 }
    ensures { result ≡ triangle_from values.now k }
{
    floats::Triangle {
        a: floats::Position {
            x: values[k],
            y: values[k + 1],
        },
        b: floats::Position {
            x: values[k + 2],
            y: values[k + 3],
        },
        c: floats::Position {
            x: values[k + 4],
            y: values[k + 5],
        },
    }
}

// U and V of twelve values, U0x, U0y, .. V2y.
pub fn pair_of(values: &[f64; 12]) -> (floats::Triangle, floats::Triangle)
    ensures { result ≡ (triangle_from values.now 0, triangle_from values.now 6) }
{
    (triangle_from(values, 0), triangle_from(values, 6))
}

// Whether the two triangles are far: twelve finite values, and no point that is in both boxes. Only where the boxes share none are values looked at one by one.
pub fn is_far(values: &[f64]) -> bool
    ensures { result ≡ far_by values.now }
{
    let Some(twelve) = values.as_array::<12>() else {
        return false;
    };
    let (u, v) = pair_of(twelve);
    if boxes::share_point(boxes::box_of(u), boxes::box_of(v)) {
        return false;
    }
    all_finite(twelve)
}

// What every rule starts from: d, e, and the parameters of U0, U1 and U2. In this order two doubles that are reckoned together lie together, which takes 12
// instructions a pair less.
#[derive(Clone, Copy)]
pub struct Start {
    pub p: lines::Params,
    pub d: f64,
    pub q: lines::Params,
    pub e: f64,
    pub r: lines::Params,
}

impl Start {
    // The rows of the refusals from the coordinates to the parameters, in their order. Of d, e and the parameters the last values tell of all on their way,
    // and w of x and y.
    #[tactic(auto, unfolding(crate::specs::Front::front_by))]
    fn judged_by_rows(self, values: &[f64]) -> Result<(), Refusal>
        ensures { number_told result ≡ front_by values.now self.d self.e self.p self.q self.r }
    {
        if !all_finite(values) {
            return Err(Refusal::NotFinite);
        }
        if !floats::is_finite(self.d) {
            return Err(Refusal::Overflow);
        }
        if self.d == 0.0 {
            return Err(Refusal::FlatV);
        }
        if !floats::is_finite(self.e) {
            return Err(Refusal::Overflow);
        }
        if self.e == 0.0 {
            return Err(Refusal::FlatU);
        }
        if floats::is_finite(self.p.w)
            & (floats::is_finite(self.q.w) & floats::is_finite(self.r.w))
        {
            return Ok(());
        }
        Err(Refusal::Overflow)
    }

    // Whether one sum tells that none of these rows holds. A sum that is finite has finite terms: where that of e and the three w is, no coordinate
    // and nothing on the way to them is not.
    fn is_clear(self) -> bool
        ensures { result ≡ clear_by self.d self.e self.p self.q self.r }
    {
        floats::is_finite(self.p.w + self.q.w + self.r.w + self.e)
            & ((self.d != 0.0) & (self.e != 0.0))
    }

    // Whether the sum tells so and all of U lies beyond one of V's lines: then nothing is found.
    #[tactic(auto, unfolding(crate::specs::Front::beyond_by))]
    pub fn beyond(self) -> bool
        ensures { result ≡ beyond_by self.d self.e self.p self.q self.r }
    {
        if self.is_clear() {
            return walk::beyond_a_line([
                lines::signs_of(self.p),
                lines::signs_of(self.q),
                lines::signs_of(self.r),
            ]);
        }
        false
    }

    // Which of these rows holds first, if one does. They are asked one by one only where the sum does not tell.
    #[tactic(auto, unfolding(crate::specs::Front::number_by))]
    pub fn judged(self, values: &[f64]) -> Result<(), Refusal>
        ensures { number_told result ≡ number_by values.now self.d self.e self.p self.q self.r }
    {
        if self.is_clear() {
            return Ok(());
        }
        self.judged_by_rows(values)
    }
}
