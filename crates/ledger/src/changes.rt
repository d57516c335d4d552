// A brace with one thing changed.
ghost use Rattle.std.specs.Prelude.{◌≡◌};
ghost use Rattle.ledger.specs.Ledger.{brace_with_force, brace_with_check};

use crate::entries::Brace;
use verdicts::force::Force;
use verdicts::verdict::Verdict;

impl Brace {
    // A new force voids the check.
    pub fn with_force(self, force: Force) -> Brace
        ensures { result ≡ brace_with_force force self }
    {
        Brace {
            force: Some(force),
            check: None,
            ..self
        }
    }

    pub fn with_check(self, verdict: Verdict) -> Brace
        ensures { result ≡ brace_with_check verdict self }
    {
        Brace {
            check: Some(verdict),
            ..self
        }
    }
}
