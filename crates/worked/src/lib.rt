// Worked strengths and verdicts, and figures on both sides of every limit, as tests.
#![tactic(auto)]

#[cfg(test)]
mod joint;
#[cfg(test)]
mod rows;

#[cfg(test)]
mod tests {
    use crate::joint::{FITS, Joint};
    use crate::rows::LIMITS;
    use editions::api::Api;
    use editions::edition::Edition;
    use editions::iso::Iso2007;
    use editions::names::edition_number;
    use editions::strength::Strength;
    use layers::can::Can;
    use layers::divisor::Divisor;
    use layers::pile::Pile;
    use records::kind::Kind;
    use records::limits::{Figure, Misfit, RatioFigures};
    use std::test::Fail;
    use verdicts::force::Force;
    use verdicts::forces::ForceFigures;
    use verdicts::reckon::verdict;
    use verdicts::verdict::{Ends, Part, Spent, Verdict};

    // An X joint as thick as its brace, with no load on its chord.
    fn unloaded(diameter: i64, wall: i64, brace: i64) -> Joint {
        Joint {
            diameter,
            wall,
            nominal: wall,
            brace,
            thickness: wall,
            ..FITS
        }
    }

    // What an edition tells: a strength, or none where the chord is spent.
    fn told<E: Edition>(edition: &E, joint: Joint, kind: Kind) -> Result<Option<Strength>, Misfit> {
        let (brace, ratios) = joint.records()?;
        Ok(edition.tell(&brace, ratios, kind))
    }

    // The told ends, where they enclose `value` millionths.
    fn enclosing<E: Edition>(
        edition: &E,
        joint: Joint,
        kind: Kind,
        value: u64,
    ) -> Option<Strength> {
        let strength = told(edition, joint, kind).ok().flatten()?;
        (strength.low <= value && value <= strength.high).then_some(strength)
    }

    fn apart(strength: Strength) -> u64 {
        strength.high.saturating_sub(strength.low)
    }

    // The strength is `value` millionths: it lies between ends that are a millionth of it and three units apart at most.
    fn tells<E: Edition>(edition: &E, joint: Joint, kind: Kind, value: u64) -> bool {
        enclosing(edition, joint, kind, value).is_some_and(|s| apart(s) <= s.low / 1000000 + 3)
    }

    // The same of ends that are two units apart at most.
    fn tells_closely<E: Edition>(edition: &E, joint: Joint, kind: Kind, value: u64) -> bool {
        enclosing(edition, joint, kind, value).is_some_and(|s| apart(s) <= 2)
    }

    #[test]
    fn x_tension_is_18_4_by_both_editions(rt: HostRuntime) {
        let joint = unloaded(400, 80, 320);
        assert!(rt; tells(&Api {}, joint, Kind::XTension, 18400000));
        assert!(rt; tells(&Iso2007 {}, joint, Kind::XTension, 18400000));
    }

    #[test]
    fn iso_factors_are_11_4_and_18_and_16(rt: HostRuntime) {
        let iso = Iso2007 {};
        assert!(rt; tells(&iso, unloaded(400, 80, 200), Kind::YCompression, 11400000));
        assert!(rt; tells(&iso, unloaded(400, 80, 320), Kind::InPlane, 18000000));
        assert!(rt; tells(&iso, unloaded(400, 80, 400), Kind::OutOfPlane, 16000000));
    }

    #[test]
    fn api_y_compression_is_38_8_from_gamma_20_on(rt: HostRuntime) {
        assert!(rt;
            tells(
                &Api {},
                unloaded(400, 100, 400),
                Kind::YCompression,
                38800000
            )
        );
        assert!(rt;
            tells(
                &Api {},
                unloaded(600, 60, 600),
                Kind::YCompression,
                38800000
            )
        );
    }

    // At β = 1 and γ = 20 the K factor is 40 times the gap factor.
    #[test]
    fn api_gap_factor_is_1_1272112_at_a_twentieth(rt: HostRuntime) {
        let joint = Joint {
            gap: 20,
            ..unloaded(400, 100, 400)
        };
        assert!(rt; tells(&Api {}, joint, Kind::KAxial, 45088448));
    }

    // At β = 1 the Y tension factor is 30.
    #[test]
    fn api_chord_factor_falls_and_rises_with_p(rt: HostRuntime) {
        let pushed = Joint {
            p: -3000,
            ..unloaded(400, 80, 400)
        };
        let pulled = Joint {
            p: 3000,
            ..unloaded(400, 80, 400)
        };
        assert!(rt; tells(&Api {}, pushed, Kind::YTension, 25140000));
        assert!(rt; tells(&Api {}, pulled, Kind::YTension, 30540000));
    }

    #[test]
    fn api_y_chord_is_spent_from_p_8897_on(rt: HostRuntime) {
        let unspent = Joint {
            p: -8896,
            ..unloaded(400, 80, 320)
        };
        let spent = Joint {
            p: -8897,
            ..unloaded(400, 80, 320)
        };
        assert!(rt; matches!(told(&Api {}, unspent, Kind::YTension), Ok(Some(_))));
        assert!(rt; matches!(told(&Api {}, spent, Kind::YTension), Ok(None)));
        assert!(rt; matches!(told(&Api {}, unspent, Kind::YCompression), Ok(Some(_))));
        assert!(rt; matches!(told(&Api {}, spent, Kind::YCompression), Ok(None)));
    }

    // Qf is exactly a tenth there.
    #[test]
    fn a_tenth_is_not_spent(rt: HostRuntime) {
        let tenth = Joint {
            mi: 7500,
            mo: 7500,
            ..unloaded(400, 80, 320)
        };
        let less = Joint { mo: 7501, ..tenth };
        assert!(rt; matches!(told(&Api {}, tenth, Kind::YTension), Ok(Some(_))));
        assert!(rt; matches!(told(&Api {}, less, Kind::YTension), Ok(None)));
    }

    // Qβ is 1 at β = 0.6 and 0.3 / (0.601 × (1 − 0.833 × 0.601)) just above it.
    #[test]
    fn q_beta_jumps_above_six_tenths(rt: HostRuntime) {
        let iso = Iso2007 {};
        assert!(rt; tells(&iso, unloaded(1000, 400, 600), Kind::XCompression, 10750000));
        assert!(rt; tells(&iso, unloaded(1000, 400, 601), Kind::XCompression, 10758962));
    }

    // D 400, T 80, Tn 40, Lc 500.
    fn short_can(brace: i64) -> Joint {
        Joint {
            nominal: 40,
            ..unloaded(400, 80, brace)
        }
    }

    // k is 0.625 at d 200 and 0.875 at d 400, of Y tensions of 15 and 30; K and the moments keep their strengths.
    #[test]
    fn a_short_can_takes_its_part_of_y_and_x(rt: HostRuntime) {
        let can = Can { below: Iso2007 {} };
        assert!(rt; tells_closely(&can, short_can(200), Kind::YTension, 9375000));
        assert!(rt; tells_closely(&can, short_can(400), Kind::YTension, 26250000));
        assert!(rt; tells_closely(&can, short_can(200), Kind::XTension, 7187500));
        assert!(rt; tells_closely(&can, short_can(320), Kind::InPlane, 18000000));
        assert!(rt; tells_closely(&can, short_can(400), Kind::OutOfPlane, 16000000));
    }

    #[test]
    fn a_divisor_divides_and_refuses_outside_100_to_200(rt: HostRuntime) -> Result<(), Fail> {
        let divisor = Divisor::new(Iso2007 {}, 125)
            .ok()
            .ok_or("125 hundredths are no divisor")?;
        assert!(rt; tells_closely(&divisor, short_can(320), Kind::YTension, 19200000));
        assert!(rt; tells_closely(&divisor, short_can(320), Kind::InPlane, 14400000));
        for c in [100, 200] {
            assert!(rt; Divisor::new(Api {}, c).is_ok(), "at {c}");
        }
        for c in [99, 201, i64::MIN] {
            assert!(rt; Divisor::new(Api {}, c).is_err(), "at {c}");
        }
        let refused = Divisor::new(Api {}, 201)
            .err()
            .ok_or("201 hundredths are a divisor")?;
        assert_eq!(rt; (refused.fault.number(), refused.fault.field()), (7, 3));
        Ok(())
    }

    fn canned<E>(below: E) -> Can<E> {
        Can { below }
    }

    // Three layers are 1,000 wide, two cans have a floor of 6,250, and ten layers neither pass a million nor fall below 0.
    #[test]
    fn stacks_add_up_their_widths_and_floors(rt: HostRuntime) {
        assert_eq!(rt; canned(canned(canned(Api {}))).width(), 1000);
        assert_eq!(rt; canned(canned(Iso2007 {})).floor(), 6250);
        let four = canned(canned(canned(canned(Api {}))));
        let ten = canned(canned(canned(canned(canned(canned(four))))));
        assert_eq!(rt; ten.width(), 3100);
        assert_eq!(rt; ten.floor(), 0);
    }

    // The width and the floor of the pile that the numbers name, or the number of the refusal and the field that it names.
    fn named(edition: i64, c: i64, can: i64) -> Result<(u64, u64), (u8, u8)> {
        let pile = Pile::of(edition, c, can).map_err(|fault| (fault.number(), fault.field()))?;
        Ok((pile.width(), pile.floor()))
    }

    #[test]
    fn numbers_name_piles(rt: HostRuntime) {
        for (edition, c, can, outcome) in [
            (1, 100, 0, Ok((100, 100000))),
            (2, 100, 0, Ok((100, 100000))),
            (1, 100, 1, Ok((400, 25000))),
            (2, 101, 0, Ok((400, 50000))),
            (2, 200, 1, Ok((700, 12500))),
            (0, 99, 2, Err((7, 2))),
            (3, 100, 0, Err((7, 2))),
            (-1, 100, 0, Err((7, 2))),
            (1, 99, 2, Err((7, 3))),
            (2, 201, 0, Err((7, 3))),
            (1, 100, 2, Err((7, 4))),
            (2, 200, -1, Err((7, 4))),
        ] {
            assert_eq!(rt; named(edition, c, can), outcome, "at {edition}, {c}, {can}");
        }
    }

    #[test]
    fn texts_name_editions(rt: HostRuntime) {
        for (text, number) in [
            ("iso2007", 1),
            ("api", 2),
            ("API", 0),
            ("iso2007 ", 0),
            ("", 0),
        ] {
            assert_eq!(rt; edition_number(text), number, "at {text}");
        }
    }

    const NO_LOAD: RatioFigures = RatioFigures { p: 0, mi: 0, mo: 0 };

    fn pull(n: i64) -> ForceFigures {
        ForceFigures {
            n,
            my: 0,
            mz: 0,
            ratios: NO_LOAD,
        }
    }

    fn bend(my: i64, mz: i64) -> ForceFigures {
        ForceFigures { my, mz, ..pull(0) }
    }

    // The verdict on an X joint with D 400, T 80, d 320 and sine 1, or the kind of a spent chord.
    fn answer<E: Edition>(
        edition: &E,
        figures: ForceFigures,
    ) -> Result<Result<Verdict, Spent>, Misfit> {
        let (brace, _) = unloaded(400, 80, 320).records()?;
        let force = Force::new(figures)?;
        Ok(verdict(edition, &brace, &force))
    }

    // The ends enclose `value` and are at most 20 millionths apart.
    fn is_about(ends: Ends, value: u64) -> bool {
        ends.low <= value && value <= ends.high && ends.high.saturating_sub(ends.low) <= 20
    }

    // X tension resists 412,160 N.
    #[test]
    fn a_pull_of_206080_is_half_of_what_x_resists(rt: HostRuntime) {
        assert!(rt;
            matches!(answer(&Iso2007 {}, pull(206080)), Ok(Ok(Verdict::Pass(e))) if is_about(e, 500000))
        );
        assert!(rt;
            matches!(answer(&Api {}, pull(206080)), Ok(Ok(Verdict::Pass(e))) if is_about(e, 500000))
        );
        assert!(rt;
            matches!(answer(&Iso2007 {}, pull(0)), Ok(Ok(Verdict::Pass(e))) if is_about(e, 0))
        );
    }

    #[test]
    fn pulls_about_the_resistance_pass_are_near_or_fail(rt: HostRuntime) {
        assert!(rt;
            matches!(answer(&Iso2007 {}, pull(412150)), Ok(Ok(Verdict::Pass(e))) if is_about(e, 999976))
        );
        assert!(rt;
            matches!(answer(&Iso2007 {}, pull(412160)), Ok(Ok(Verdict::Near(e))) if is_about(e, 1000000))
        );
        assert!(rt;
            matches!(answer(&Iso2007 {}, pull(412170)), Ok(Ok(Verdict::Fail(e))) if is_about(e, 1000024))
        );
        assert!(rt;
            matches!(answer(&Iso2007 {}, pull(420000)), Ok(Ok(Verdict::Fail(e))) if is_about(e, 1019022))
        );
    }

    // X compression resists less than X tension; the sign of the force tells which.
    #[test]
    fn the_sign_of_the_force_chooses_the_kind(rt: HostRuntime) {
        let pulled = answer(&Iso2007 {}, pull(206080));
        let pushed = answer(&Iso2007 {}, pull(-206080));
        assert!(rt;
            matches!((pulled, pushed), (Ok(Ok(Verdict::Pass(t))), Ok(Ok(Verdict::Pass(c)))) if t.high < c.low)
        );
    }

    // In-plane the joint resists 129,024 Nm by ISO.
    #[test]
    fn the_in_plane_ratio_is_squared(rt: HostRuntime) {
        assert!(rt;
            matches!(answer(&Iso2007 {}, bend(64512, 0)), Ok(Ok(Verdict::Pass(e))) if is_about(e, 250000))
        );
        assert!(rt;
            matches!(answer(&Iso2007 {}, bend(-64512, 0)), Ok(Ok(Verdict::Pass(e))) if is_about(e, 250000))
        );
    }

    #[test]
    fn a_ratio_above_ten_is_far_and_the_first_is_named(rt: HostRuntime) {
        let iso = Iso2007 {};
        assert!(rt; matches!(answer(&iso, pull(4121600)), Ok(Ok(Verdict::Fail(_)))));
        assert!(rt; matches!(answer(&iso, bend(1290200, 0)), Ok(Ok(Verdict::Fail(_)))));
        for (figures, part) in [
            (pull(4121700), Part::AxialForce),
            (bend(1290300, 0), Part::InPlaneMoment),
            (bend(0, 100000000), Part::OutOfPlaneMoment),
            (bend(1290300, 100000000), Part::InPlaneMoment),
        ] {
            assert_eq!(rt; answer(&iso, figures), Ok(Ok(Verdict::Far(part))));
        }
        let all = ForceFigures {
            n: -100000000,
            ..bend(100000000, -100000000)
        };
        assert_eq!(rt;
            answer(&Api {}, all),
            Ok(Ok(Verdict::Far(Part::AxialForce)))
        );
    }

    // Y is spent there by API, but this brace has no share of Y; in-plane, kind 6, is in use whatever the shares.
    #[test]
    fn only_kinds_in_use_can_be_spent(rt: HostRuntime) {
        let spent_for_y = ForceFigures {
            ratios: RatioFigures {
                p: -8897,
                ..NO_LOAD
            },
            ..pull(1000)
        };
        let spent_in_plane = ForceFigures {
            ratios: RatioFigures {
                p: -10000,
                ..NO_LOAD
            },
            ..pull(1000)
        };
        assert!(rt;
            matches!(answer(&Api {}, spent_for_y), Ok(Ok(Verdict::Pass(e))) if is_about(e, 5691))
        );
        let kind = Kind::InPlane;
        assert_eq!(rt; kind.number(), 6);
        assert_eq!(rt;
            answer(&Iso2007 {}, spent_in_plane),
            Ok(Err(Spent { kind }))
        );
    }

    #[test]
    fn forces_within_a_hundred_million(rt: HostRuntime) {
        let top = 100000000;
        let ratios = RatioFigures {
            p: 10000,
            ..NO_LOAD
        };
        let whole = ForceFigures {
            n: top,
            my: -top,
            mz: top,
            ratios,
        };
        let p = RatioFigures { p: 10001, ..ratios };
        let mi = RatioFigures {
            mi: -10001,
            ..ratios
        };
        let mo = RatioFigures {
            mo: 10001,
            ..ratios
        };
        let axial = ForceFigures {
            n: top + 1,
            ..whole
        };
        let both = ForceFigures {
            n: i64::MIN,
            my: top + 1,
            ..whole
        };
        let inner = ForceFigures {
            my: -top - 1,
            ..whole
        };
        let outer = ForceFigures {
            mz: top + 1,
            ..whole
        };
        assert_eq!(rt; Force::new(whole).err(), None);
        for (figures, figure, field) in [
            (axial, Figure::AxialForce, 4),
            (both, Figure::AxialForce, 4),
            (inner, Figure::InPlaneMoment, 5),
            (outer, Figure::OutOfPlaneMoment, 6),
            (ForceFigures { ratios: p, ..whole }, Figure::AxialRatio, 7),
            (
                ForceFigures {
                    ratios: mi,
                    ..whole
                },
                Figure::InPlaneRatio,
                8,
            ),
            (
                ForceFigures {
                    ratios: mo,
                    ..whole
                },
                Figure::OutOfPlaneRatio,
                9,
            ),
        ] {
            assert_eq!(rt; Force::new(figures).err(), Some(figure));
            assert_eq!(rt; (figure.number(), figure.field()), (10, field));
        }
    }

    #[test]
    fn limits_hold_on_both_sides(rt: HostRuntime) {
        for (joint, misfit) in &LIMITS {
            assert_eq!(rt; joint.records().err(), *misfit, "at {joint:?}");
        }
    }
}
