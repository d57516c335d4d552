ghost use Rattle.std.specs.Prelude.{◌≡◌};
ghost use Rattle.records.specs.Kinds.{number as place};

// The seven kinds of strength.
#[derive(Clone, Copy, Debug, PartialEq, Eq)]
pub enum Kind {
    KAxial = 1,
    YTension = 2,
    YCompression = 3,
    XTension = 4,
    XCompression = 5,
    InPlane = 6,
    OutOfPlane = 7,
}

impl Kind {
    // Its number, from 1 to 7.
    pub fn number(self) -> u8
        ensures { result ≡ place self }
    {
        self as u8
    }
}
