// What a check answers.
use records::kind::Kind;

// The three ratios of a utilisation, in their order.
#[derive(Clone, Copy, PartialEq, Eq, Debug)]
pub enum Part {
    AxialForce,
    InPlaneMoment,
    OutOfPlaneMoment,
}

// A lower and an upper end, in millionths: what is told, with no bounds of its own. A type beside an edition's `Strength`, so that
// neither is taken for the other.
#[derive(Clone, Copy, PartialEq, Eq, Debug)]
pub struct Ends {
    pub low: u64,
    pub high: u64,
}

#[derive(Clone, Copy, PartialEq, Eq, Debug)]
pub enum Verdict {
    Pass(Ends),
    Fail(Ends),
    Near(Ends),
    Far(Part),
}

// The kind in use for which the chord is spent.
#[derive(Clone, Copy, PartialEq, Eq, Debug)]
pub struct Spent {
    pub kind: Kind,
}
