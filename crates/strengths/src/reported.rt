// The codes of practice as the report shows them.
ghost use Rattle.std.specs.Prelude.{◌≡◌};
ghost use Rattle.records.specs.declared.kind.Kind.{Kind};
ghost use Rattle.records.specs.declared.record.BraceRecord.{BraceRecord};
ghost use Rattle.layers.specs.declared.pile.Pile.{Pile};
ghost use Rattle.strengths.specs.declared.line.Joint.{Joint};
ghost use Rattle.strengths.specs.declared.row.Row.{Row};
ghost use Rattle.strengths.specs.Codes.{pile_by_iso, pile_by_api};
ghost use Rattle.strengths.specs.Rows.{row_by_iso, row_by_api};

use crate::line::Joint;
use crate::row::{Bound, Row, beta_row};
use editions::api::Api;
use editions::code::Code;
use editions::iso::Iso2007;
use editions::rows::{api_gap_row, iso_gap_row};
use layers::pile::Pile;
use records::kind::Kind;
use records::record::BraceRecord;

// A code of practice has a table of its own, and a joint has a pile of layers over each.
pub trait Reported: Code {
    ghost pile: { Joint → Pile };

    ghost row: { BraceRecord → Kind → Row };

    const HEADING: &'static str;

    fn pile_of<'a>(&self, joint: &'a Joint) -> &'a Pile
        ensures { result.now ≡ pile joint.now };

    // Which row of the table a strength comes from.
    fn row_of(&self, r: &BraceRecord, kind: Kind) -> Row
        ensures { result ≡ row r.now kind };
}

impl Reported for Iso2007 {
    ghost pile = { pile_by_iso };

    ghost row = { row_by_iso };

    const HEADING: &'static str = "iso2007";

    fn pile_of<'a>(&self, joint: &'a Joint) -> &'a Pile {
        &joint.iso
    }

    fn row_of(&self, r: &BraceRecord, kind: Kind) -> Row {
        match kind {
            Kind::KAxial => Row {
                gap: Some(iso_gap_row(r)),
                beta: Some(beta_row(Bound::SixTenths, r)),
            },
            Kind::YCompression | Kind::XCompression => Row {
                gap: None,
                beta: Some(beta_row(Bound::SixTenths, r)),
            },
            Kind::XTension => Row {
                gap: None,
                beta: Some(beta_row(Bound::NineTenths, r)),
            },
            Kind::YTension | Kind::InPlane | Kind::OutOfPlane => Row {
                gap: None,
                beta: None,
            },
        }
    }
}

impl Reported for Api {
    ghost pile = { pile_by_api };

    ghost row = { row_by_api };

    const HEADING: &'static str = "api";

    fn pile_of<'a>(&self, joint: &'a Joint) -> &'a Pile {
        &joint.api
    }

    fn row_of(&self, r: &BraceRecord, kind: Kind) -> Row {
        match kind {
            Kind::KAxial => Row {
                gap: Some(api_gap_row(r)),
                beta: None,
            },
            Kind::XCompression => Row {
                gap: None,
                beta: Some(beta_row(Bound::SixTenths, r)),
            },
            Kind::XTension => Row {
                gap: None,
                beta: Some(beta_row(Bound::NineTenths, r)),
            },
            Kind::YTension | Kind::YCompression | Kind::InPlane | Kind::OutOfPlane => Row {
                gap: None,
                beta: None,
            },
        }
    }
}
