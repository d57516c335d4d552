// Calls and answers as text. Each is wrapped in a type of this crate, which alone can be printed here.
use book::calls::{Answer, Call};
use ledger::refusal::Refusal;
use std::fmt;
use verdicts::verdict::{Part, Verdict};

#[derive(Clone, Copy)]
pub struct Asked(pub Call);

impl fmt::Display for Asked {
    fn fmt<W: fmt::Write>(&self, f: &mut fmt::Formatter<W>) -> fmt::Result {
        match self.0 {
            Call::Enter { joint, figures } => write!(
                f,
                "enter joint {joint}, D {}, T {}",
                figures.diameter, figures.wall
            ),
            Call::Add {
                joint,
                brace,
                figures,
            } => write!(f, "add brace {brace} at joint {joint}, d {}", figures.brace),
            Call::Load {
                joint,
                brace,
                figures,
            } => write!(
                f,
                "load brace {brace} at joint {joint}, N {}, My {}, Mz {}",
                figures.n, figures.my, figures.mz
            ),
            Call::Withdraw { joint } => write!(f, "withdraw joint {joint}"),
            Call::Check { joint, brace } => write!(f, "check brace {brace} at joint {joint}"),
            Call::FindWorst => write!(f, "worst"),
        }
    }
}

// What makes a verdict FAR.
#[derive(Clone, Copy)]
struct Cause(Part);

impl fmt::Display for Cause {
    fn fmt<W: fmt::Write>(&self, f: &mut fmt::Formatter<W>) -> fmt::Result {
        f.pad(match self.0 {
            Part::AxialForce => "axial force",
            Part::InPlaneMoment => "in-plane moment",
            Part::OutOfPlaneMoment => "out-of-plane moment",
        })
    }
}

#[derive(Clone, Copy)]
struct Told(Verdict);

impl fmt::Display for Told {
    fn fmt<W: fmt::Write>(&self, f: &mut fmt::Formatter<W>) -> fmt::Result {
        let (word, ends) = match self.0 {
            Verdict::Pass(ends) => ("PASS", ends),
            Verdict::Fail(ends) => ("FAIL", ends),
            Verdict::Near(ends) => ("NEAR", ends),
            Verdict::Far(part) => return write!(f, "FAR, by the {}", Cause(part)),
        };
        write!(f, "{word}, {} to {} millionths", ends.low, ends.high)
    }
}

#[derive(Clone, Copy)]
pub struct Said(pub Result<Answer, Refusal>);

impl fmt::Display for Said {
    fn fmt<W: fmt::Write>(&self, f: &mut fmt::Formatter<W>) -> fmt::Result {
        match self.0 {
            Ok(Answer::Done) => write!(f, "done"),
            Ok(Answer::Checked(verdict)) => write!(f, "{}", Told(verdict)),
            Ok(Answer::Found(worst)) => write!(
                f,
                "joint {}, brace {}, {}",
                worst.joint,
                worst.brace,
                Told(worst.verdict)
            ),
            Err(refusal) => write!(
                f,
                "refused by {} with {}",
                refusal.number(),
                refusal.value()
            ),
        }
    }
}
