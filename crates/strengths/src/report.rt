// What is printed of a joint.
ghost use Rattle.strengths.specs.Codes.{ToldBy};

use crate::line::Joint;
use crate::reported::Reported;
use editions::api::Api;
use editions::edition::Edition;
use editions::iso::Iso2007;
use editions::strength::Strength;
use records::kind::Kind;
use std::fmt;

const KINDS: [Kind; 7] = [
    Kind::KAxial,
    Kind::YTension,
    Kind::YCompression,
    Kind::XTension,
    Kind::XCompression,
    Kind::InPlane,
    Kind::OutOfPlane,
];

// A kind of strength by its name.
#[derive(Clone, Copy)]
struct Name(Kind);

impl fmt::Display for Name {
    fn fmt<W: fmt::Write>(&self, f: &mut fmt::Formatter<W>) -> fmt::Result {
        f.pad(match self.0 {
            Kind::KAxial => "K axial",
            Kind::YTension => "Y tension",
            Kind::YCompression => "Y compression",
            Kind::XTension => "X tension",
            Kind::XCompression => "X compression",
            Kind::InPlane => "in-plane",
            Kind::OutOfPlane => "out-of-plane",
        })
    }
}

// What the pile of a joint over this code tells, or none where the chord is spent.
fn tell<C: Reported>(code: &C, joint: &Joint, kind: Kind) -> Option<Strength>
    ensures { ToldBy C.pile joint.now kind result }
{
    code.pile_of(joint).tell(&joint.brace, joint.ratios, kind)
}

// A number of millionths, with six decimals.
#[derive(Clone, Copy)]
struct Millionths(u64);

impl fmt::Display for Millionths {
    fn fmt<W: fmt::Write>(&self, f: &mut fmt::Formatter<W>) -> fmt::Result {
        let whole = self.0 / 1000000;
        let rest = self.0 % 1000000;
        write!(f, "{whole:>4}.{rest:06}")
    }
}

// How far apart the ends are, in thousandths of a part in a million of the lower one, rounded up; 0 where the lower end is 0.
fn width(strength: Strength) -> u128 {
    if strength.low == 0 {
        return 0;
    }
    let apart = strength.high.saturating_sub(strength.low);
    (apart as u128 * 1000000000).div_ceil(strength.low as u128)
}

// One row of the report. Code, joint and kind stay apart: the loops over the codes and the kinds give them one by one.
fn print_kind<C: Reported>(
    rt: &HostRuntime,
    code: &C,
    joint: &Joint,
    kind: Kind,
) -> anyhow::Result<()> {
    let name = Name(kind);
    let row = code.row_of(&joint.brace, kind);
    let Some(q) = code.chord_factor(&joint.brace, joint.ratios, kind) else {
        println!(rt; "  {name:<13}  {row}  Qf SPENT")?;
        return Ok(());
    };
    print!(rt; "  {name:<13}  {row}  Qf {}/{}", q.num, q.den)?;
    let Some(strength) = tell(code, joint, kind) else {
        println!(rt; "  SPENT")?;
        return Ok(());
    };
    let ppm = width(strength);
    println!(rt;
        "  low {}  high {}  width {}.{:03} ppm",
        Millionths(strength.low),
        Millionths(strength.high),
        ppm / 1000,
        ppm % 1000
    )?;
    Ok(())
}

fn print_code<C: Reported>(rt: &HostRuntime, code: &C, joint: &Joint) -> anyhow::Result<()> {
    println!(rt; " {}", C::HEADING)?;
    for kind in KINDS {
        print_kind(rt, code, joint, kind)?;
    }
    Ok(())
}

pub fn print_joint(rt: &HostRuntime, line: u64, joint: &Joint) -> anyhow::Result<()> {
    let r = &joint.brace;
    let q = joint.ratios;
    println!(rt;
        "line {line}: D {} T {} Tn {} fy {}  d {} t {} fyb {} s {} g {} Lc {}",
        r.diameter,
        r.wall,
        r.can.nominal,
        r.fy,
        r.brace,
        r.thickness,
        r.fyb,
        r.sine,
        r.gap,
        r.can.length
    )?;
    println!(rt;
        "  p {} mi {} mo {}  c {} can {}",
        q.p, q.mi, q.mo, joint.c, joint.can
    )?;
    print_code(rt, &Iso2007 {}, joint)?;
    print_code(rt, &Api {}, joint)
}
