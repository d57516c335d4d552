// What is printed.
ghost use Rattle.std.specs.Prelude.{◌≡◌, Some};
ghost use Rattle.decks.specs.Outputs.{word_of, check_text, fault_text, last_text, worst_text};

use crate::fault::Fault;
use ledger::entries::Worst;
use ledger::refusal::Refusal;
use std::fmt;
use verdicts::verdict::Verdict;

// A verdict by its word.
#[derive(Clone, Copy)]
struct Word(Verdict);

impl fmt::Display for Word {
    ghost output = { λ w. Some (word_of w.0) };

    fn fmt<W: fmt::Write>(&self, f: &mut fmt::Formatter<W>) -> fmt::Result {
        match self.0 {
            Verdict::Pass(_) => write!(f, "PASS"),
            Verdict::Fail(_) => write!(f, "FAIL"),
            Verdict::Near(_) => write!(f, "NEAR"),
            Verdict::Far(_) => write!(f, "FAR"),
        }
    }
}

// A fault, with the line that has it.
#[derive(Clone, Copy)]
pub struct LineFault {
    pub line: usize,
    pub fault: Fault,
}

impl fmt::Display for LineFault {
    ghost output = { λ f. Some (fault_text f) };

    fn fmt<W: fmt::Write>(&self, f: &mut fmt::Formatter<W>) -> fmt::Result {
        let line = self.line;
        let number = self.fault.number();
        let value = self.fault.value();
        write!(f, "REFUSED,{line},{number},{value}\n")
    }
}

// What a check says: the joint and the brace that it names, and the verdict. An accepted line of any other card says nothing.
#[derive(Clone, Copy)]
pub struct CheckLine {
    pub joint: i64,
    pub brace: i64,
    pub verdict: Verdict,
}

impl fmt::Display for CheckLine {
    ghost output = { λ c. Some (check_text c) };

    fn fmt<W: fmt::Write>(&self, f: &mut fmt::Formatter<W>) -> fmt::Result {
        let joint = self.joint;
        let brace = self.brace;
        let word = Word(self.verdict);
        write!(f, "RESULT,{joint},{brace},{word}\n")
    }
}

// What ends the output: the brace whose standing check reaches highest and its joint, or 0 and 0 where no check stands.
#[derive(Clone, Copy)]
pub(crate) struct WorstLine {
    joint: u32,
    brace: u32,
}

impl WorstLine {
    pub(crate) const NONE: WorstLine = WorstLine { joint: 0, brace: 0 };
}

impl From<Result<Worst, Refusal>> for WorstLine {
    ghost from_gives = { λ r l. last_text l.joint l.brace ≡ worst_text r };

    #[tactic(auto, using(crate::proofs::Lines::zeros))]
    fn from(worst: Result<Worst, Refusal>) -> WorstLine {
        match worst {
            Ok(worst) => WorstLine {
                joint: worst.joint,
                brace: worst.brace,
            },
            // The one refusal of a worst is that no check stands.
            Err(_) => WorstLine::NONE,
        }
    }
}

impl fmt::Display for WorstLine {
    ghost output = { λ l. Some (last_text l.joint l.brace) };

    fn fmt<W: fmt::Write>(&self, f: &mut fmt::Formatter<W>) -> fmt::Result {
        let joint = self.joint;
        let brace = self.brace;
        write!(f, "WORST,{joint},{brace}\n")
    }
}
