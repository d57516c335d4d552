// The book's calls on examples: causes in their order, full tables, checks that are voided, the worst brace, and editions of ours
// and of a stranger.
#![tactic(auto)]

mod rated;
mod rating;

#[cfg(test)]
mod tests {
    use crate::rated::Rated;
    use book::book::Book;
    use book::opening::Obstacle;
    use editions::api::Api;
    use editions::edition::Edition;
    use houserule::rule::HouseRule;
    use layers::can::Can;
    use layers::divisor::Divisor;
    use layers::pile::Pile;
    use ledger::refusal::Refusal;
    use records::limits::{BraceFigures, ChordFigures, RatioFigures};
    use std::alloc::Global;
    use std::test::Fail;
    use verdicts::forces::ForceFigures;
    use verdicts::verdict::{Ends, Part, Verdict};

    const CHORD: ChordFigures = ChordFigures {
        diameter: 400,
        wall: 80,
        nominal: 80,
        fy: 350,
    };

    // A brace of an X joint at a right angle.
    const CROSS: BraceFigures = BraceFigures {
        brace: 320,
        thickness: 80,
        fyb: 350,
        sine: 1000000,
        gap: 50,
        length: 500,
        k: 0,
        y: 0,
        x: 1000,
    };

    // A force on a chord without any of its own.
    fn force(n: i64, my: i64, mz: i64) -> ForceFigures {
        ForceFigures {
            n,
            my,
            mz,
            ratios: RatioFigures { p: 0, mi: 0, mo: 0 },
        }
    }

    // Number and value of a refusal.
    fn refusal<T: Drop>(r: Result<T, Refusal>) -> Option<(u8, i64)> {
        r.err().map(|refusal| (refusal.number(), refusal.value()))
    }

    // Number and value of what makes an edition unusable.
    fn unusable(obstacle: Obstacle) -> Option<(u8, u64)> {
        match obstacle {
            Obstacle::Unusable(why) => Some((why.number(), why.value())),
            Obstacle::Memory => None,
        }
    }

    // A verdict by its word, to compare where the ends do not matter. A text and no `Display`: nothing is printed.
    fn word(verdict: Verdict) -> &'static str {
        match verdict {
            Verdict::Pass(_) => "PASS",
            Verdict::Fail(_) => "FAIL",
            Verdict::Near(_) => "NEAR",
            Verdict::Far(Part::AxialForce) => "FAR by the axial force",
            Verdict::Far(Part::InPlaneMoment) => "FAR by the in-plane moment",
            Verdict::Far(Part::OutOfPlaneMoment) => "FAR by the out-of-plane moment",
        }
    }

    // Joint and brace of the worst.
    fn worst<E: Edition>(book: &Book<E>) -> Result<(u32, u32), Refusal> {
        book.worst().map(|worst| (worst.joint, worst.brace))
    }

    fn api(heap: Global) -> Result<Book<Pile>, Fail> {
        let pile = Pile::of(2, 100, 0).ok().ok_or("no pile")?;
        let book = Book::new(heap, pile).ok().ok_or("no book")?;
        Ok(book)
    }

    // Joint 7 with its cross brace 1.
    fn one_brace(heap: Global) -> Result<Book<Pile>, Fail> {
        let mut book = api(heap)?;
        book.enter(7, CHORD)?;
        book.add(7, 1, CROSS)?;
        Ok(book)
    }

    #[test]
    fn a_pull_of_206080_is_half_and_420000_fails(rt: HostRuntime) -> Result<(), Fail> {
        let mut book = one_brace(rt.alloc())?;
        book.load(7, 1, force(206080, 0, 0))?;
        let Verdict::Pass(ends) = book.check(7, 1)? else {
            return Err(Fail::new("not a pass"));
        };
        assert!(rt; ends.low <= 500000 && 500000 <= ends.high && ends.high - ends.low <= 2);
        book.load(7, 1, force(420000, 0, 0))?;
        assert_eq!(rt; word(book.check(7, 1)?), "FAIL");
        assert_eq!(rt; refusal(book.check(7, 2)), Some((5, 3)));
        assert_eq!(rt; worst(&book), Ok((7, 1)));
        Ok(())
    }

    #[test]
    fn enter_is_refused_in_order(rt: HostRuntime) -> Result<(), Fail> {
        let mut book = api(rt.alloc())?;
        let none = ChordFigures {
            diameter: 199,
            wall: 59,
            nominal: 0,
            fy: 199,
        };
        assert_eq!(rt; refusal(book.enter(0, none)), Some((3, 2)));
        assert_eq!(rt; refusal(book.enter(1000, CHORD)), Some((3, 2)));
        assert_eq!(rt; refusal(book.enter(999, none)), Some((7, 3)));
        book.enter(999, CHORD)?;
        assert_eq!(rt; refusal(book.enter(999, none)), Some((4, 2)));
        for joint in 1..16 {
            book.enter(joint, CHORD)?;
        }
        assert_eq!(rt; refusal(book.enter(16, none)), Some((6, 16)));
        assert_eq!(rt; refusal(book.enter(15, none)), Some((4, 2)));
        Ok(())
    }

    #[test]
    fn add_is_refused_in_order(rt: HostRuntime) -> Result<(), Fail> {
        let mut book = one_brace(rt.alloc())?;
        let mut none = BraceFigures {
            brace: 79,
            thickness: 19,
            x: 999,
            ..CROSS
        };
        assert_eq!(rt; refusal(book.add(0, 0, none)), Some((3, 2)));
        assert_eq!(rt; refusal(book.add(8, 0, none)), Some((3, 3)));
        assert_eq!(rt; refusal(book.add(7, 1, none)), Some((4, 3)));
        assert_eq!(rt; refusal(book.add(8, 1, none)), Some((5, 2)));
        assert_eq!(rt; refusal(book.add(7, 2, none)), Some((8, 4)));
        none.brace = 80;
        assert_eq!(rt; refusal(book.add(7, 2, none)), Some((8, 5)));
        none.thickness = 20;
        assert_eq!(rt; refusal(book.add(7, 2, none)), Some((9, 999)));
        none.k = 1001;
        assert_eq!(rt; refusal(book.add(7, 2, none)), Some((8, 10)));
        none.k = 1;
        book.add(7, 2, none)?;
        Ok(())
    }

    #[test]
    fn load_withdraw_and_check_are_refused_in_order(rt: HostRuntime) -> Result<(), Fail> {
        let mut book = one_brace(rt.alloc())?;
        let none = force(100000001, 100000001, 0);
        assert_eq!(rt; refusal(book.load(0, 0, none)), Some((3, 2)));
        assert_eq!(rt; refusal(book.load(8, 0, none)), Some((3, 3)));
        assert_eq!(rt; refusal(book.load(8, 1, none)), Some((5, 2)));
        assert_eq!(rt; refusal(book.load(7, 2, none)), Some((5, 3)));
        assert_eq!(rt; refusal(book.load(7, 1, none)), Some((10, 4)));
        assert_eq!(rt; refusal(book.check(1000, 0)), Some((3, 2)));
        assert_eq!(rt; refusal(book.check(8, 0)), Some((3, 3)));
        assert_eq!(rt; refusal(book.check(8, 1)), Some((5, 2)));
        assert_eq!(rt; refusal(book.check(7, 1)), Some((11, 0)));
        assert_eq!(rt; refusal(book.withdraw(0)), Some((3, 2)));
        assert_eq!(rt; refusal(book.withdraw(8)), Some((5, 2)));
        assert_eq!(rt; worst(&book), Err(Refusal::Unchecked));
        Ok(())
    }

    #[test]
    fn the_first_spent_kind_in_use_is_named(rt: HostRuntime) -> Result<(), Fail> {
        let mut book = one_brace(rt.alloc())?;
        let mut spent = force(0, 0, 0);
        spent.ratios.p = -10000;
        spent.ratios.mo = 10000;
        book.load(7, 1, spent)?;
        assert_eq!(rt; refusal(book.check(7, 1)), Some((12, 4)));
        spent.n = -1;
        book.load(7, 1, spent)?;
        assert_eq!(rt; refusal(book.check(7, 1)), Some((12, 5)));
        assert_eq!(rt; worst(&book), Err(Refusal::Unchecked));
        Ok(())
    }

    // All 16 joints, and eight braces at each of the first 12.
    fn fill(book: &mut Book<Pile>) -> Result<(), Refusal> {
        for joint in 1..17 {
            book.enter(joint, CHORD)?;
        }
        for joint in 1..13 {
            for brace in 1..9 {
                book.add(joint, brace, CROSS)?;
            }
        }
        Ok(())
    }

    #[test]
    fn tables_are_full_at_16_96_and_8_and_places_are_used_again(
        rt: HostRuntime,
    ) -> Result<(), Fail> {
        let mut book = api(rt.alloc())?;
        fill(&mut book)?;
        assert_eq!(rt; refusal(book.enter(17, CHORD)), Some((6, 16)));
        assert_eq!(rt; refusal(book.add(1, 9, CROSS)), Some((6, 96)));
        book.withdraw(12)?;
        assert_eq!(rt; refusal(book.add(1, 9, CROSS)), Some((6, 8)));
        assert_eq!(rt; refusal(book.add(12, 1, CROSS)), Some((5, 2)));
        book.enter(12, CHORD)?;
        for brace in 9..17 {
            book.add(12, brace, CROSS)?;
        }
        assert_eq!(rt; refusal(book.add(13, 1, CROSS)), Some((6, 96)));
        assert_eq!(rt; refusal(book.enter(17, CHORD)), Some((6, 16)));
        Ok(())
    }

    #[test]
    fn a_load_voids_the_check_and_a_refused_one_does_not(rt: HostRuntime) -> Result<(), Fail> {
        let mut book = one_brace(rt.alloc())?;
        book.load(7, 1, force(206080, 0, 0))?;
        assert_eq!(rt; word(book.check(7, 1)?), "PASS");
        assert_eq!(rt;
            refusal(book.load(7, 1, force(100000001, 0, 0))),
            Some((10, 4))
        );
        assert_eq!(rt; worst(&book), Ok((7, 1)));
        assert_eq!(rt; word(book.check(7, 1)?), "PASS");
        book.load(7, 1, force(206080, 0, 0))?;
        assert_eq!(rt; worst(&book), Err(Refusal::Unchecked));
        assert_eq!(rt; word(book.check(7, 1)?), "PASS");
        book.withdraw(7)?;
        assert_eq!(rt; worst(&book), Err(Refusal::Unchecked));
        Ok(())
    }

    // A further brace at joint 7 under a pull, checked.
    fn pulled(book: &mut Book<Pile>, brace: i64, n: i64) -> Result<Verdict, Refusal> {
        book.add(7, brace, CROSS)?;
        book.load(7, brace, force(n, 0, 0))?;
        book.check(7, brace)
    }

    #[test]
    fn the_worst_is_the_first_of_the_highest_and_far_is_above_all(
        rt: HostRuntime,
    ) -> Result<(), Fail> {
        let mut book = one_brace(rt.alloc())?;
        pulled(&mut book, 2, 206080)?;
        assert_eq!(rt; worst(&book), Ok((7, 2)));
        pulled(&mut book, 3, 300000)?;
        pulled(&mut book, 4, 300000)?;
        assert_eq!(rt; worst(&book), Ok((7, 3)));
        pulled(&mut book, 5, 5000000)?;
        pulled(&mut book, 6, 100000000)?;
        assert_eq!(rt; worst(&book), Ok((7, 5)));
        assert_eq!(rt; word(book.check(7, 5)?), "FAR by the axial force");
        book.load(7, 5, force(0, 0, 0))?;
        assert_eq!(rt; worst(&book), Ok((7, 6)));
        Ok(())
    }

    #[test]
    fn numbers_of_64_bits_are_refused_and_nothing_wraps(rt: HostRuntime) -> Result<(), Fail> {
        let mut book = one_brace(rt.alloc())?;
        assert_eq!(rt; refusal(book.enter(i64::MIN, CHORD)), Some((3, 2)));
        assert_eq!(rt; refusal(book.add(i64::MAX, 1, CROSS)), Some((3, 2)));
        let mut wide = ChordFigures {
            wall: i64::MAX,
            ..CHORD
        };
        assert_eq!(rt; refusal(book.enter(1, wide)), Some((7, 4)));
        wide.wall = 80;
        wide.nominal = i64::MIN;
        assert_eq!(rt; refusal(book.enter(1, wide)), Some((7, 5)));
        let mut long = BraceFigures {
            brace: i64::MIN,
            ..CROSS
        };
        assert_eq!(rt; refusal(book.add(7, 2, long)), Some((8, 4)));
        long.brace = 320;
        long.gap = i64::MIN;
        assert_eq!(rt; refusal(book.add(7, 2, long)), Some((8, 8)));
        long.gap = 50;
        long.y = i64::MAX;
        assert_eq!(rt; refusal(book.add(7, 2, long)), Some((8, 11)));
        assert_eq!(rt;
            refusal(book.load(7, 1, force(i64::MIN, 0, 0))),
            Some((10, 4))
        );
        Ok(())
    }

    #[test]
    fn three_layers_are_too_wide_and_two_cans_too_low(rt: HostRuntime) -> Result<(), Fail> {
        let cans = Can {
            below: Can { below: Api {} },
        };
        let low = Book::new(rt.alloc(), cans)
            .err()
            .ok_or("opened by two cans")?;
        assert_eq!(rt; unusable(low.why), Some((2, 6250)));
        let three = Divisor::new(low.edition, 150).ok().ok_or("no divisor")?;
        let wide = Book::new(rt.alloc(), three)
            .err()
            .ok_or("opened by three layers")?;
        assert_eq!(rt; unusable(wide.why), Some((1, 1000)));
        Ok(())
    }

    // What keeps a book from being opened by an edition of this width and this floor, which is at most the tenth that it tells.
    fn hindrance(heap: Global, width: u64, floor: u64) -> Option<(u8, u64)> {
        if floor > 100_000 {
            return None;
        }
        Book::new(heap, Rated { width, floor })
            .err()
            .and_then(|unopened| unusable(unopened.why))
    }

    #[test]
    fn books_are_opened_up_to_a_width_of_700_and_down_to_a_floor_of_10000(rt: HostRuntime) {
        assert_eq!(rt; hindrance(rt.alloc(), 700, 10_000), None);
        assert_eq!(rt; hindrance(rt.alloc(), 701, 10_000), Some((1, 701)));
        assert_eq!(rt; hindrance(rt.alloc(), 700, 9_999), Some((2, 9_999)));
        assert_eq!(rt; hindrance(rt.alloc(), 701, 9_999), Some((1, 701)));
        assert_eq!(rt; hindrance(rt.alloc(), u64::MAX, 0), Some((1, u64::MAX)));
        assert_eq!(rt; hindrance(rt.alloc(), 0, 0), Some((2, 0)));
    }

    #[test]
    fn a_strangers_edition_keeps_a_book(rt: HostRuntime) -> Result<(), Fail> {
        let rule = HouseRule::new(10000000).ok_or("no rule")?;
        let mut book = Book::new(rt.alloc(), rule).ok().ok_or("no book")?;
        book.enter(1, CHORD)?;
        book.add(1, 1, CROSS)?;
        book.load(1, 1, force(-112000, 0, 0))?;
        let half = Ends {
            low: 500000,
            high: 500000,
        };
        assert_eq!(rt; book.check(1, 1), Ok(Verdict::Pass(half)));
        let mut spent = force(0, 0, 0);
        spent.ratios.p = -5000;
        book.load(1, 1, spent)?;
        assert_eq!(rt; word(book.check(1, 1)?), "PASS");
        spent.ratios.p = -5001;
        book.load(1, 1, spent)?;
        assert_eq!(rt; refusal(book.check(1, 1)), Some((12, 4)));
        Ok(())
    }
}
