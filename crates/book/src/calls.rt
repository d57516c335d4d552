// What a book is asked, and what it answers where it does not refuse.
use ledger::entries::Worst;
use records::limits::{BraceFigures, ChordFigures};
use verdicts::forces::ForceFigures;
use verdicts::verdict::Verdict;

// A call as a value: as fields it has what the call of its name takes, in its order.
#[derive(Clone, Copy)]
pub enum Call {
    Enter {
        joint: i64,
        figures: ChordFigures,
    },
    Add {
        joint: i64,
        brace: i64,
        figures: BraceFigures,
    },
    Load {
        joint: i64,
        brace: i64,
        figures: ForceFigures,
    },
    Withdraw {
        joint: i64,
    },
    Check {
        joint: i64,
        brace: i64,
    },
    FindWorst,
}

#[derive(Clone, Copy, PartialEq, Eq, Debug)]
pub enum Answer {
    Done,
    Checked(Verdict),
    Found(Worst),
}
