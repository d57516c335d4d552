// A joint with two braces, as an engineer might work through it.
use book::calls::Call;
use records::limits::{BraceFigures, ChordFigures, RatioFigures};
use verdicts::forces::ForceFigures;

const CHORD: ChordFigures = ChordFigures {
    diameter: 400,
    wall: 80,
    nominal: 80,
    fy: 350,
};

const CROSS: BraceFigures = BraceFigures {
    brace: 320,
    thickness: 80,
    fyb: 350,
    sine: 1000000,
    gap: 50,
    length: 500,
    k: 0,
    y: 0,
    x: 1000,
};

const MIXED: BraceFigures = BraceFigures {
    brace: 200,
    thickness: 60,
    sine: 707107,
    k: 500,
    y: 300,
    x: 200,
    ..CROSS
};

const REST: ForceFigures = ForceFigures {
    n: 0,
    my: 0,
    mz: 0,
    ratios: RatioFigures { p: 0, mi: 0, mo: 0 },
};

const HALF: ForceFigures = ForceFigures { n: 206080, ..REST };

const PULL: ForceFigures = ForceFigures { n: 420000, ..REST };

const PUSH: ForceFigures = ForceFigures {
    n: -150000,
    my: 20000,
    mz: -5000,
    ratios: RatioFigures {
        p: -2000,
        mi: 1500,
        mo: 0,
    },
};

const TOO_MUCH: ForceFigures = ForceFigures { mz: 900000, ..REST };

const SPENT: ForceFigures = ForceFigures {
    n: 1000,
    ratios: RatioFigures {
        p: -10000,
        mi: 0,
        mo: 10000,
    },
    ..REST
};

pub const CALLS: [Call; 19] = [
    Call::FindWorst,
    Call::Enter {
        joint: 7,
        figures: CHORD,
    },
    Call::Enter {
        joint: 7,
        figures: CHORD,
    },
    Call::Add {
        joint: 7,
        brace: 1,
        figures: CROSS,
    },
    Call::Add {
        joint: 7,
        brace: 2,
        figures: MIXED,
    },
    Call::Check { joint: 7, brace: 1 },
    Call::Load {
        joint: 7,
        brace: 1,
        figures: HALF,
    },
    Call::Check { joint: 7, brace: 1 },
    Call::Load {
        joint: 7,
        brace: 2,
        figures: PUSH,
    },
    Call::Check { joint: 7, brace: 2 },
    Call::FindWorst,
    Call::Load {
        joint: 7,
        brace: 1,
        figures: PULL,
    },
    Call::Check { joint: 7, brace: 1 },
    Call::Load {
        joint: 7,
        brace: 2,
        figures: TOO_MUCH,
    },
    Call::Check { joint: 7, brace: 2 },
    Call::FindWorst,
    Call::Load {
        joint: 7,
        brace: 2,
        figures: SPENT,
    },
    Call::Check { joint: 7, brace: 2 },
    Call::Withdraw { joint: 7 },
];
