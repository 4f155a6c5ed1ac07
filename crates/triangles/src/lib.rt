// The answer of two triangles: its rules, the laws that hold of them, and what an answer is.
#![tactic(auto)]

ghost use Rattle.std.specs.Prelude.{◌≡◌};
ghost use Rattle.triangles.specs.Decision.{decided, said};

// What the rules answer: number 0, or a refusal's number with everything else zero; the ring's n corners stand in the lent room.
// Stays numbers: `meskelow_intersect` hands it to C.
#[repr(C)]
#[derive(Clone, Copy, Debug, Default, PartialEq)]
pub struct Answer {
    pub number: u32,
    pub n: u32,
    pub area: f64,
    pub u_in_v: [bool; 3],
    pub v_in_u: [bool; 3],
    pub neighbour: [bool; 3],
}

// What a corner of the ring is: a vertex of U or a corner of V, the reference, by its number; or a crossing, with U's edge, V's line and the fraction t by which
// it was placed.
#[derive(Clone, Copy, Debug, PartialEq)]
pub enum Kind {
    Vertex(u32),
    Reference(u32),
    Crossing(u32, u32, f64),
}

// A corner of the ring: what it is, and where it stands.
#[derive(Clone, Copy, Debug, PartialEq)]
pub struct Corner {
    pub kind: Kind,
    pub x: f64,
    pub y: f64,
}

// What is decided of two triangles where no corners are asked for: refused with the number, overlapping with the area, touching, or apart.
// Stays with a number for a refusal: `decided` gives a decision of every `Answer`, also of one whose number no refusal has.
#[derive(Clone, Copy, Debug, PartialEq)]
pub enum Decision {
    Refused(u32),
    Overlapping(f64),
    Touching,
    Apart,
}

// What is said of a decision: number 0, the pair's kind (0 apart, 1 touching, 2 overlapping) and its area; or a refusal's number with zeros.
// Stays numbers: `meskelow_decide` hands it to C.
#[repr(C)]
#[derive(Clone, Copy, Debug, PartialEq)]
pub struct Said {
    pub number: u32,
    pub kind: u32,
    pub area: f64,
}

// A refusal with its number; no corners: apart; corners and an area above zero: overlapping, with that area; corners and no such area: touching.
impl From<Answer> for Decision {
    ghost from_gives = { λ a d. d ≡ decided a };

    #[tactic(auto, unfolding(crate::specs::Decision::decided))]
    fn from(a: Answer) -> Decision {
        if a.number != 0 {
            return Decision::Refused(a.number);
        }
        if a.n == 0 {
            return Decision::Apart;
        }
        if 0.0 < a.area {
            return Decision::Overlapping(a.area);
        }
        Decision::Touching
    }
}

// A refusal's number with zeros, or 0 with the kind and the area.
impl From<Decision> for Said {
    ghost from_gives = { λ d s. s ≡ said d };

    fn from(d: Decision) -> Said {
        let (number, kind, area) = match d {
            Decision::Refused(k) => (k, 0, 0.0),
            Decision::Overlapping(a) => (0, 2, a),
            Decision::Touching => (0, 1, 0.0),
            Decision::Apart => (0, 0, 0.0),
        };
        Said { number, kind, area }
    }
}
