// What the tables hold.
use records::record::{BraceRecord, Chord};
use verdicts::force::Force;
use verdicts::verdict::Verdict;

#[derive(Clone, Copy)]
pub struct Joint {
    pub number: u32,
    pub chord: Chord,
}

// A brace number is one among the braces of its joint.
#[derive(Clone, Copy)]
pub struct Brace {
    pub joint: u32,
    pub number: u32,
    pub figures: BraceRecord,
    pub force: Option<Force>,
    pub check: Option<Verdict>,
}

// The brace whose standing check reaches highest.
#[derive(Clone, Copy, PartialEq, Eq, Debug)]
pub struct Worst {
    pub joint: u32,
    pub brace: u32,
    pub verdict: Verdict,
}
