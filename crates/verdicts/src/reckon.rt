// Works out the verdict. The edition, the brace and its force are three parameters and not one struct: a clause names each alone,
// where it would read `self.now.edition.now`.
ghost use Rattle.std.specs.Prelude.{◌≡◌, ℕ, ◌+◌, ◌*◌, ◌/◌, ◌<◌, ◌≤◌, true, cond, MatchResult};
ghost use Rattle.verdicts.specs.Reckoners.{tension};
ghost use Rattle.verdicts.specs.Bindings.{FirstSpent};
ghost use Rattle.verdicts.specs.Verdicts.{Checked};
ghost use Rattle.verdicts.specs.Steps.{Follows, Trusts, Knows, Knowing, Encloses, based};

use crate::ends::{Consulted, Known, Ratio, Resistance};
use crate::force::Force;
use crate::verdict::{Ends, Part, Spent, Verdict};
use editions::edition::Edition;
use editions::strength::Strength;
use records::kind::Kind;
use records::record::{BraceRecord, Shares};

// 1 and 10, in millionths.
const ONE: u64 = 1_000_000;

const TEN: u64 = 10 * ONE;

// The ends of a strength, if they are as close, by 700 parts in a million, and as far from 0 as a usable edition's. An Option and
// no `TryFrom`: there is no error to tell.
fn trusted(told: Strength) -> Option<Known>
    ensures { Trusts told result }
{
    let Strength { low, high } = told;
    if 10_000 <= low
        && low <= high
        && high <= 2_000_000_000
        && high * 1_000_000 <= low * 1_000_700
    {
        Some(Known { low, high })
    } else {
        None
    }
}

// Ends of 1, for a strength of which the brace has no share, and for an edition that is not usable.
fn unknown() -> Known {
    Known {
        low: ONE,
        high: ONE,
    }
}

// The ends of a strength, where the brace has a share of it.
fn known<E: Edition>(
    edition: &E,
    brace: &BraceRecord,
    force: &Force,
    kind: Kind,
    share: u64,
) -> Result<Known, Spent>
    ensures { MatchResult result (λ e. Knows (E.meaning edition.now) brace.now force.now kind share e) (λ s. (s.kind ≡ kind) × (0 < share) × ((E.meaning edition.now).spent brace.now force.now.ratios kind ≡ true)) }
{
    if share == 0 {
        return Ok(unknown());
    }
    let told = edition
        .tell(brace, force.ratios, kind)
        .ok_or(Spent { kind })?;
    Ok(trusted(told).unwrap_or(unknown()))
}

// No force counts as a pull.
fn is_tension(force: &Force) -> bool
    ensures { result ≡ tension force.now.n }
{
    force.n >= 0
}

// The one of two kinds that is asked of a force of this sign.
fn by_sign(force: &Force, pulled: Kind, pushed: Kind) -> Kind
    ensures { result ≡ cond (tension force.now.n) pulled pushed }
{
    if is_tension(force) { pulled } else { pushed }
}

// The strengths in use, or the first kind for which the chord is spent.
fn consult<E: Edition>(edition: &E, brace: &BraceRecord, force: &Force) -> Result<Consulted, Spent>
    ensures { MatchResult result (λ c. Knowing (E.meaning edition.now) brace.now force.now c) (λ s. FirstSpent (E.meaning edition.now) brace.now force.now s.kind) }
{
    let k = known(edition, brace, force, Kind::KAxial, brace.shares.k)?;
    let y_kind = by_sign(force, Kind::YTension, Kind::YCompression);
    let y = known(edition, brace, force, y_kind, brace.shares.y)?;
    let x_kind = by_sign(force, Kind::XTension, Kind::XCompression);
    let x = known(edition, brace, force, x_kind, brace.shares.x)?;
    let inner = known(edition, brace, force, Kind::InPlane, 1)?;
    let outer = known(edition, brace, force, Kind::OutOfPlane, 1)?;
    Ok(Consulted {
        k,
        y,
        x,
        inner,
        outer,
    })
}

// fy T², in hundredths of newtons.
fn base(brace: &BraceRecord) -> u128
    ensures value { result ≡ brace.now.fy * (brace.now.wall * brace.now.wall) }
    ensures least { 720000 ≤ result }
    ensures most { result ≤ 2000000000 }
{
    brace.fy as u128 * (brace.wall as u128 * brace.wall as u128)
}

// A thousand times the average of three strengths by the shares of their classes.
fn shared(shares: Shares, k: u64, y: u64, x: u64) -> u128
    ensures { result ≡ shares.k * k + shares.y * y + shares.x * x }
{
    shares.k as u128 * k as u128 + shares.y as u128 * y as u128 + shares.x as u128 * x as u128
}

// Two calls of `shared`, one for each end: a closure that picks an end of each strength would be longer than the call that it
// saves.
fn axial_resistance(brace: &BraceRecord, c: &Consulted) -> Resistance
    ensures low { result.low ≡ based brace.now (brace.now.shares.k * c.now.k.low + brace.now.shares.y * c.now.y.low + brace.now.shares.x * c.now.x.low) }
    ensures high { result.high ≡ based brace.now (brace.now.shares.k * c.now.k.high + brace.now.shares.y * c.now.y.high + brace.now.shares.x * c.now.x.high) }
{
    let low = shared(brace.shares, c.k.low, c.y.low, c.x.low);
    let high = shared(brace.shares, c.k.high, c.y.high, c.x.high);
    let base = base(brace);
    Resistance {
        low: base * low,
        high: base * high,
    }
}

fn moment_resistance(brace: &BraceRecord, strength: Known) -> Resistance
    ensures low { result.low ≡ based brace.now (brace.now.brace * strength.low) }
    ensures high { result.high ≡ based brace.now (brace.now.brace * strength.high) }
{
    let base = base(brace) * brace.brace as u128;
    Resistance {
        low: base * strength.low as u128,
        high: base * strength.high as u128,
    }
}

// The ends of the ratio of a load to a resistance. 10 ^ 11 gathers the units of the resistance, the sine and the share.
fn ratio(load: u64, brace: &BraceRecord, by: Resistance) -> Ratio
    requires { load ≤ 100000000 }
    ensures { Encloses load brace.now by result }
{
    let load = load as u128 * brace.sine as u128 * 100_000_000_000;
    Ratio {
        low: (load / by.high) as u64,
        high: load.div_ceil(by.low) as u64,
    }
}

// The verdict that follows from the ends of the three ratios. The three tests stand one by one, as the rule names the first of
// them.
fn verdict_of(axial: Ratio, inner: Ratio, outer: Ratio) -> Verdict
    ensures { Follows axial inner outer result }
{
    if axial.low > TEN {
        return Verdict::Far(Part::AxialForce);
    }
    if inner.low > TEN {
        return Verdict::Far(Part::InPlaneMoment);
    }
    if outer.low > TEN {
        return Verdict::Far(Part::OutOfPlaneMoment);
    }
    let ends = Ends {
        low: axial.low + inner.low * inner.low / ONE + outer.low,
        high: axial.high + (inner.high * inner.high).div_ceil(ONE) + outer.high,
    };
    if ends.high <= ONE {
        Verdict::Pass(ends)
    } else if ends.low > ONE {
        Verdict::Fail(ends)
    } else {
        Verdict::Near(ends)
    }
}

// The verdict on a brace under its force, by any edition. It binds the reckoners where the edition is usable.
pub fn verdict<E: Edition>(
    edition: &E,
    brace: &BraceRecord,
    force: &Force,
) -> Result<Verdict, Spent>
    ensures { Checked (E.meaning edition.now) brace.now force.now result }
{
    let c = consult(edition, brace, force)?;
    let axial = ratio(force.n.unsigned_abs(), brace, axial_resistance(brace, &c));
    let inner = ratio(
        force.my.unsigned_abs(),
        brace,
        moment_resistance(brace, c.inner),
    );
    let outer = ratio(
        force.mz.unsigned_abs(),
        brace,
        moment_resistance(brace, c.outer),
    );
    Ok(verdict_of(axial, inner, outer))
}
