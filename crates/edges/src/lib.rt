// The edges of every check of calendars, headers and the verdict, of the table of orders, and small first plans, as tests.
#![tactic(auto)]

#[cfg(test)]
mod planned;
#[cfg(test)]
mod tables;
#[cfg(test)]
mod verdicts;

#[cfg(test)]
mod tests {
    use calendar::{Calendar, CalendarFault, Closing, Listed, Weekly};
    use sheet::opening::calendar_of;
    use std::alloc::Global;
    use std::process::Abort;
    use std::test::Fail;

    #[test]
    fn most_is_at_most_512(rt: HostRuntime) {
        assert_eq!(rt; Listed::check(&[(512, 512), (0, 0)]), Ok(()));
        assert_eq!(rt;
            Listed::check(&[(0, 512), (0, 513), (1, 0)]),
            Err(CalendarFault::BadRow(1))
        );
        let good = [(0, 1), (0, 1), (0, 1), (0, 1), (0, 1), (0, 1), (0, 512)];
        let high = [(0, 1), (0, 1), (0, 1), (0, 1), (0, 1), (0, 1), (0, 513)];
        assert_eq!(rt; Weekly::check(&good, 0), Ok(()));
        assert_eq!(rt; Weekly::check(&high, 0), Err(CalendarFault::BadRow(6)));
    }

    #[test]
    fn weekday_is_at_most_6(rt: HostRuntime) {
        let rows = [
            (0, 10),
            (0, 11),
            (0, 12),
            (0, 13),
            (0, 14),
            (0, 15),
            (0, 16),
        ];
        assert_eq!(rt; Weekly::check(&rows, 6), Ok(()));
        assert_eq!(rt; Weekly::check(&rows, 7), Err(CalendarFault::NoWeekday));
        assert_eq!(rt; Weekly::new(rows, 6).pair(0), (0, 16));
        assert_eq!(rt; Weekly::new(rows, 6).pair(65535), (0, 10));
        assert_eq!(rt; Weekly::new(rows, 7).pair(0), (0, 0));
    }

    // A list is checked as expected, and its calendar has a pair on a day.
    fn listed(
        rt: &impl Abort,
        rows: &[(u16, u16)],
        checked: Result<(), CalendarFault>,
        day: u16,
        pair: (u16, u16),
    ) {
        assert_eq!(rt; Listed::check(rows), checked);
        let calendar = Listed::new(rows);
        assert_eq!(rt; calendar.pair(day), pair);
    }

    #[test]
    fn lists_have_at_most_65536_pairs(rt: HostRuntime) -> Result<(), Fail> {
        let mut rows = vec![in rt.alloc(); (1, 2); 65536]?;
        listed(&rt, &[], Ok(()), 0, (0, 0));
        listed(&rt, &[(3, 4)], Ok(()), 0, (3, 4));
        listed(&rt, &[(3, 4)], Ok(()), 1, (0, 0));
        listed(&rt, &rows, Ok(()), 65535, (1, 2));
        rows.push((1, 2))?;
        listed(&rt, &rows, Err(CalendarFault::TooManyPairs), 0, (0, 0));
        Ok(())
    }

    #[test]
    fn runs_are_at_most_16(rt: HostRuntime) -> Result<(), Fail> {
        let list = [(1, 2), (1, 2), (1, 2), (1, 2), (1, 2)];
        let mut runs = vec![in rt.alloc(); (3, 3); 16]?;
        assert_eq!(rt; Closing::<Listed>::check(&runs), Ok(()));
        let layer = Closing::new(Listed::new(&list), &runs);
        assert_eq!(rt; layer.pair(3), (0, 0));
        assert_eq!(rt; layer.pair(4), (1, 2));
        runs.push((9, 8))?;
        assert_eq!(rt;
            Closing::<Listed>::check(&runs),
            Err(CalendarFault::TooManyRuns)
        );
        let without = Closing::new(Listed::new(&list), &runs);
        assert_eq!(rt; without.pair(3), (1, 2));
        assert_eq!(rt;
            Closing::<Listed>::check(&[(0, 5), (9, 8), (7, 6)]),
            Err(CalendarFault::BadRun(1))
        );
        Ok(())
    }

    #[test]
    fn layers_stack(rt: HostRuntime) {
        let list = [(1, 2), (1, 2), (1, 2), (1, 2), (1, 2)];
        let pile = Closing::new(
            Closing::new(Listed::new(&list), &[(0, 0)]),
            &[(2, 3), (3, 4)],
        );
        assert_eq!(rt; pile.pair(0), (0, 0));
        assert_eq!(rt; pile.pair(1), (1, 2));
        assert_eq!(rt; pile.pair(3), (0, 0));
        assert_eq!(rt; pile.pair(4), (0, 0));
    }

    // The header of a sheet gives the text of a refusal, or none.
    fn gives(rt: &impl Abort, heap: Global, sheet: &[u8], text: &str) -> Result<(), Fail> {
        match calendar_of(sheet) {
            Ok(_) => {
                assert_eq!(rt; "", text);
                Ok(())
            },
            Err(refusal) => {
                let told = refusal.to_string(heap)?;
                assert_eq!(rt; told.as_str(), text);
                Ok(())
            }
        }
    }

    #[test]
    fn lines_end_with_byte_10(rt: HostRuntime) -> Result<(), Fail> {
        let heap = rt.alloc();
        gives(&rt, heap, b"", "refused 1 1 S 53")?;
        gives(&rt, heap, b"\n", "refused 1 1 S 50")?;
        gives(&rt, heap, b"OVB 1", "refused 2 1 S 53")?;
        gives(&rt, heap, b"OVB 1\n", "refused 2 1 S 53")?;
        gives(&rt, heap, b"OVB 1\n\n", "refused 2 1 S 51")?;
        gives(
            &rt,
            heap,
            b"OVB 1\nW 0 0 1 0 1 0 1 0 1 0 1 0 1 0 1",
            "refused 3 1 S 53",
        )?;
        gives(&rt, heap, b"OVB 1\nW 0 0 1 0 1 0 1 0 1 0 1 0 1 0 1\nX", "")?;
        gives(
            &rt,
            heap,
            b"OVB 1\nW 0 0 1 0 1 0 1 0 1 0 1 0 1 0 1\nX\n",
            "",
        )?;
        gives(
            &rt,
            heap,
            b"OVB 1\nW 0 0 1 0 1 0 1 0 1 0 1 0 1 0 1\n\nX",
            "refused 3 1 S 51",
        )
    }

    #[test]
    fn line_1_is_the_mark(rt: HostRuntime) -> Result<(), Fail> {
        let heap = rt.alloc();
        gives(&rt, heap, b"OVB 01", "refused 1 1 S 50")?;
        gives(&rt, heap, b"OVB 2", "refused 1 1 S 50")?;
        gives(&rt, heap, b"OVB 1 ", "refused 1 1 S 50")?;
        gives(&rt, heap, b"OVB 1\r\n", "refused 1 1 S 50")?;
        gives(&rt, heap, b" OVB 1", "refused 1 1 S 50")?;
        gives(&rt, heap, b"OVB", "refused 1 1 S 50")?;
        let long = vec![in heap; 10u8; 60001]?;
        gives(&rt, heap, &long, "refused 1 1 S 50")?;
        let mark = vec![in heap; 79u8; 60000]?;
        gives(&rt, heap, &mark, "refused 1 1 S 50")
    }

    #[test]
    fn line_2_is_a_week(rt: HostRuntime) -> Result<(), Fail> {
        let heap = rt.alloc();
        gives(
            &rt,
            heap,
            b"OVB 1\nW 6 0 512 0 1 0 1 0 1 0 1 0 1 0 1\nX",
            "",
        )?;
        gives(
            &rt,
            heap,
            b"OVB 1\nW 7 0 1 0 1 0 1 0 1 0 1 0 1 0 1",
            "refused 2 1 C 40",
        )?;
        gives(
            &rt,
            heap,
            b"OVB 1\nW 0 0 513 0 1 0 1 0 1 0 1 0 1 0 1",
            "refused 2 1 C 41",
        )?;
        gives(
            &rt,
            heap,
            b"OVB 1\nW 0 2 1 0 1 0 1 0 1 0 1 0 1 0 1",
            "refused 2 1 C 41",
        )?;
        gives(
            &rt,
            heap,
            b"OVB 1\nW 0 0 65536 0 1 0 1 0 1 0 1 0 1 0 1",
            "refused 2 7 S 52",
        )?;
        gives(
            &rt,
            heap,
            b"OVB 1\nW 0 00 1 0 1 0 1 0 1 0 1 0 1 0 1",
            "refused 2 5 S 52",
        )?;
        gives(
            &rt,
            heap,
            b"OVB 1\nW  0 1 0 1 0 1 0 1 0 1 0 1 0 1",
            "refused 2 3 S 52",
        )?;
        gives(
            &rt,
            heap,
            b"OVB 1\nW 0 0 1 0 1 0 1 0 1 0 1 0 1 0 ",
            "refused 2 31 S 52",
        )?;
        gives(
            &rt,
            heap,
            b"OVB 1\nW 0 0 1 0 1 0 1 0 1 0 1 0 1 0 1 ",
            "refused 2 1 S 51",
        )?;
        gives(
            &rt,
            heap,
            b"OVB 1\nW 0 0 1 0 1 0 1 0 1 0 1 0 1 0",
            "refused 2 1 S 51",
        )?;
        gives(
            &rt,
            heap,
            b"OVB 1\nX 0 0 1 0 1 0 1 0 1 0 1 0 1 0 1",
            "refused 2 1 S 51",
        )?;
        gives(
            &rt,
            heap,
            b"OVB 1\nw 0 0 1 0 1 0 1 0 1 0 1 0 1 0 1",
            "refused 2 1 S 51",
        )
    }

    #[test]
    fn line_3_is_closed_runs(rt: HostRuntime) -> Result<(), Fail> {
        let heap = rt.alloc();
        gives(
            &rt,
            heap,
            b"OVB 1\nW 0 0 1 0 1 0 1 0 1 0 1 0 1 0 1\nX 1 2 3 4",
            "",
        )?;
        gives(
            &rt,
            heap,
            b"OVB 1\nW 0 0 1 0 1 0 1 0 1 0 1 0 1 0 1\nX 1 2 4 3",
            "refused 3 1 C 42",
        )?;
        gives(
            &rt,
            heap,
            b"OVB 1\nW 0 0 1 0 1 0 1 0 1 0 1 0 1 0 1\nX 1",
            "refused 3 1 S 51",
        )?;
        gives(
            &rt,
            heap,
            b"OVB 1\nW 0 0 1 0 1 0 1 0 1 0 1 0 1 0 1\nX ",
            "refused 3 1 S 51",
        )?;
        gives(
            &rt,
            heap,
            b"OVB 1\nW 0 0 1 0 1 0 1 0 1 0 1 0 1 0 1\nX  ",
            "refused 3 3 S 52",
        )?;
        gives(
            &rt,
            heap,
            b"OVB 1\nW 0 0 1 0 1 0 1 0 1 0 1 0 1 0 1\nX 1 +2",
            "refused 3 5 S 52",
        )?;
        gives(
            &rt,
            heap,
            b"OVB 1\nW 0 0 1 0 1 0 1 0 1 0 1 0 1 0 1\nX 0 0 0 0 0 0 0 0 0 0 0 0 0 0 0 0 0 0 0 0 0 0 0 0 0 0 0 0 0 0 0 0",
            "",
        )?;
        gives(
            &rt,
            heap,
            b"OVB 1\nW 0 0 1 0 1 0 1 0 1 0 1 0 1 0 1\nX 0 0 0 0 0 0 0 0 0 0 0 0 0 0 0 0 0 0 0 0 0 0 0 0 0 0 0 0 0 0 0 0 2 1",
            "refused 3 1 C 43",
        )
    }

    // A header whose third line has so many bytes, all but its letter spaces.
    fn spaced(rt: &impl Abort, heap: Global, bytes: usize, text: &str) -> Result<(), Fail> {
        let mut sheet = b"OVB 1\nW 0 0 1 0 1 0 1 0 1 0 1 0 1 0 1\nX".to_vec(heap)?;
        for _ in 1..bytes {
            sheet.push(b' ')?;
        }
        gives(rt, heap, &sheet, text)
    }

    #[test]
    fn lines_have_at_most_200_bytes(rt: HostRuntime) -> Result<(), Fail> {
        spaced(&rt, rt.alloc(), 199, "refused 3 3 S 52")?;
        spaced(&rt, rt.alloc(), 200, "refused 3 1 S 51")?;
        spaced(&rt, rt.alloc(), 201, "refused 3 1 S 51")
    }
}
