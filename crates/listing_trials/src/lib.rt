//! Trials of the listing: inputs, and the listings that they give.
#![tactic(auto)]

#[cfg(test)]
mod tests {
    use listing::listing::listing;
    use std::alloc::{AllocError, Global};
    use std::process::Abort;
    use std::test::Fail;

    const NAMES: &str = "line kind from to left right\n";

    const LOG: &str = "\ntime a b\n0 1 0\n";

    const RULES: &str = "line kind from to left right\n0 m - - 0 -\n\n";

    // The input gives the listing.
    fn gives(rt: &impl Abort, heap: Global, input: &str, expected: &str) -> Result<(), Fail> {
        let text = listing(heap, input.as_bytes())?;
        assert_eq!(rt; text.as_str(), expected, "{}", input);
        Ok(())
    }

    // Each input, between the two texts, gives a fault with these values.
    fn faults(
        rt: &impl Abort,
        heap: Global,
        before: &str,
        after: &str,
        trials: &[(&str, &str)],
    ) -> Result<(), Fail> {
        for (input, values) in trials {
            let whole = format!(in heap; "{before}{input}{after}")?;
            let expected = format!(in heap; "fault text line field\n{values}\n")?;
            gives(rt, heap, &whole, &expected)?;
        }
        Ok(())
    }

    // The lines of a rules text and a log text give a line for each row.
    fn rules(
        rt: &impl Abort,
        heap: Global,
        lines: &str,
        log: &str,
        rows: &str,
    ) -> Result<(), Fail> {
        let input = format!(in heap; "{NAMES}{lines}\n{log}")?;
        let expected = format!(in heap; "row ruling nodes\n{rows}")?;
        gives(rt, heap, &input, &expected)
    }

    // Lines that begin with their numbers, from a first one on.
    fn numbered(heap: Global, from: usize, to: usize, rest: &str) -> Result<String, AllocError> {
        let mut text = String::new(heap);
        for number in from..to {
            write!(text, "{number}{rest}")?;
        }
        Ok(text)
    }

    // Line 0 is a mark, and each of the others takes the one before twice.
    fn doubled(heap: Global, lines: usize) -> Result<String, AllocError> {
        let mut text = String::from_str(heap, "0 m - - 0 -\n")?;
        for line in 1..lines {
            let before = line - 1;
            write!(text, "{line} a - - {before} {before}\n")?;
        }
        Ok(text)
    }

    // Faults of a rules text: its names line, then its lines.
    #[test]
    fn rules_text(rt: HostRuntime) -> Result<(), Fail> {
        faults(
            &rt,
            rt.alloc(),
            "",
            LOG,
            &[
                ("", "28 rules 1 0"),
                ("\tline kind from to left right\n", "28 rules 1 0"),
                ("line\n", "29 rules 1 0"),
                ("line kind from to left  right\n", "29 rules 1 0"),
                ("line kind from to left right \n", "29 rules 1 0"),
                ("0 m - - 0 -\n", "29 rules 1 0"),
            ],
        )?;
        faults(
            &rt,
            rt.alloc(),
            NAMES,
            LOG,
            &[
                ("0 m - - 0 -\r\n", "28 rules 2 0"),
                ("0 m - - 0 -\n1 m - - \x7f -\n2 m - - 2 -\n", "28 rules 3 0"),
                ("0 m - - 0 -\n1 n - - 0 \t\n", "28 rules 3 0"),
                ("0 m - - 0\n", "30 rules 2 0"),
                ("0 m - - 0 - -\n", "30 rules 2 0"),
                (" 0 m - - 0 -\n", "30 rules 2 0"),
                ("0 m - - 0 -\n1  m - - 0 -\n2 m - - 2 -\n", "30 rules 3 0"),
                ("0 m - - 0 -\n1 m - - 0 - \n", "30 rules 3 0"),
                (" \n", "30 rules 2 0"),
                ("1 m - - 0 -\n", "31 rules 2 1"),
                ("00 m - - 0 -\n", "31 rules 2 1"),
                ("- m - - 0 -\n", "31 rules 2 1"),
                ("0 m - - 0 -\n0 m - - 1 -\n", "31 rules 3 1"),
                ("0 M - - 0 -\n", "31 rules 2 2"),
                ("0 mm - - 0 -\n", "31 rules 2 2"),
                ("0 - - - 0 -\n", "31 rules 2 2"),
                ("0 m 0 - 0 -\n", "31 rules 2 3"),
                ("0 m - 1 0 -\n", "31 rules 2 4"),
                ("0 m - - - -\n", "31 rules 2 5"),
                ("0 m - - 01 -\n", "31 rules 2 5"),
                ("0 m - - +1 -\n", "31 rules 2 5"),
                ("0 m - - 4294967296 -\n", "31 rules 2 5"),
                ("0 m - - 0 0\n", "31 rules 2 6"),
                ("0 m - - 0 -\n1 p - 3 0 -\n", "31 rules 3 3"),
                ("0 m - - 0 -\n1 x 0 3a 0 -\n", "31 rules 3 4"),
                ("0 m - - 0 -\n1 s 0 - 0 -\n", "31 rules 3 6"),
                ("0 m - - 0 -\n1 a - - 0 x\n", "31 rules 3 6"),
            ],
        )
    }

    // Lines that the table refuses.
    #[test]
    fn table(rt: HostRuntime) -> Result<(), Fail> {
        faults(
            &rt,
            rt.alloc(),
            NAMES,
            LOG,
            &[
                ("0 m - - 32 -\n", "3 rules 2 0"),
                ("0 m - - 4294967295 -\n", "3 rules 2 0"),
                ("0 q - - - -\n", "2 rules 2 0"),
                ("0 b ? ! x y\n", "2 rules 2 0"),
                ("0 m - - 0 -\n1 z 1 2 3 4\n2 m - - 0 -\n", "2 rules 3 0"),
                ("0 n - - 0 -\n", "4 rules 2 0"),
                ("0 m - - 0 -\n1 a - - 0 1\n", "4 rules 3 0"),
                ("0 m - - 0 -\n1 o - - 7 0\n", "4 rules 3 0"),
                ("0 m - - 0 -\n1 s 5 4 0 0\n", "5 rules 3 0"),
                ("0 m - - 0 -\n1 p 1 0 0 -\n", "5 rules 3 0"),
                ("0 m - - 0 -\n1 u 5 4 1 0\n", "4 rules 3 0"),
                ("0 m - - 0 -\n1 u 0 - 0 0\n", "6 rules 3 0"),
                (
                    "0 m - - 0 -\n1 m - - 31 -\n2 u 4294967295 - 1 0\n",
                    "6 rules 4 0",
                ),
            ],
        )
    }

    // Faults of a log text: its names line, then its lines, and rows that the log refuses.
    #[test]
    fn log_text(rt: HostRuntime) -> Result<(), Fail> {
        faults(
            &rt,
            rt.alloc(),
            RULES,
            "",
            &[
                ("", "28 log 1 0"),
                ("time a\x7f\n", "28 log 1 0"),
                ("tim a\n", "29 log 1 0"),
                ("time  a\n", "29 log 1 0"),
                ("time A\n", "29 log 1 0"),
                ("time a1b2c3d4e\n", "29 log 1 0"),
                ("time 1a\n", "29 log 1 0"),
                ("time a \n", "29 log 1 0"),
                (
                    "time m0 m1 m2 m3 m4 m5 m6 m7 m8 m9 m10 m11 m12 m13 m14 m15 m16 m17 m18 m19 m20 m21 m22 m23 m24 m25 m26 m27 m28 m29 m30 m31 m32\n",
                    "29 log 1 0",
                ),
                ("\ntime a\n", "29 log 1 0"),
            ],
        )?;
        faults(
            &rt,
            rt.alloc(),
            RULES,
            "",
            &[
                ("time a\n0 1\n1 \t\n2 0\n", "28 log 3 0"),
                ("time a\n0 1\n1 0", "28 log 3 0"),
                ("time a\n0 1\r\n", "28 log 2 0"),
                ("time a\n0\n", "30 log 2 0"),
                ("time a\n0 1\n\n1 1\n", "30 log 3 0"),
                ("time a\n0 1\n1 1 1\n", "30 log 3 0"),
                ("time a b\n0 1 0\n1 0  1\n", "30 log 3 0"),
                ("time a\n00 1\n", "31 log 2 1"),
                ("time a\n- 1\n", "31 log 2 1"),
                ("time a\n4294967296 1\n", "31 log 2 1"),
                ("time a b\n0 1 2\n", "31 log 2 3"),
                ("time a b\n0 1 0\n1 - 0\n", "31 log 3 2"),
                ("time a b\n0 1 0\n1 1 10\n", "31 log 3 3"),
                ("time a\n5 1\n4 1\n", "7 log 3 0"),
                ("time a\n0 1\n1 1\n0 1\n2 1\n", "7 log 4 0"),
            ],
        )
    }

    // Whole inputs, with and without an empty line.
    #[test]
    fn whole_inputs(rt: HostRuntime) -> Result<(), Fail> {
        faults(
            &rt,
            rt.alloc(),
            "",
            "",
            &[
                ("", "28 rules 1 0"),
                ("\n", "28 rules 1 0"),
                ("\n\n", "28 rules 1 0"),
                ("x", "28 rules 1 0"),
                ("line kind from to left right\n", "28 log 1 0"),
                ("line kind from to left right", "28 rules 1 0"),
                ("line kind from to left right\n0 m - - 0 -\n", "28 log 1 0"),
                (
                    "line kind from to left right\n0 m - - 0 -\n\n",
                    "28 log 1 0",
                ),
                (
                    "line kind from to left right\n0 m - - 0 -\ntime a\n0 1\n",
                    "30 rules 3 0",
                ),
                ("line kind from to left right\n \n\ntime\n", "30 rules 2 0"),
                ("\nline kind from to left right\n\ntime\n", "28 rules 1 0"),
                (
                    "line kind from to left right\n\n\ntime a\n0 1\n",
                    "29 log 1 0",
                ),
                (
                    "line kind from to left right\n\ntime a\n0 2\n",
                    "31 log 2 2",
                ),
            ],
        )?;
        let text = listing(
            rt.alloc(),
            b"line kind from to left right\n0 m - - 0 -\xff\n",
        )?;
        assert_eq!(rt; text.as_str(), "fault text line field\n28 rules 2 0\n");
        Ok(())
    }

    // The rulings of every kind of line.
    #[test]
    fn rulings(rt: HostRuntime) -> Result<(), Fail> {
        let trials = [
            ("", "time a\n0 1\n", ""),
            ("", "time\n", ""),
            ("0 m - - 0 -\n", "time\n", ""),
            ("0 m - - 0 -\n", "time\n0\n1\n", "0 broken 1\n1 broken 1\n"),
            (
                "0 m - - 31 -\n",
                "time m0 m1 m2 m3 m4 m5 m6 m7 m8 m9 m10 m11 m12 m13 m14 m15 m16 m17 m18 m19 m20 m21 m22 m23 m24 m25 m26 m27 m28 m29 m30 m31\n0 0 0 0 0 0 0 0 0 0 0 0 0 0 0 0 0 0 0 0 0 0 0 0 0 0 0 0 0 0 0 0 1\n0 1 1 1 1 1 1 1 1 1 1 1 1 1 1 1 1 1 1 1 1 1 1 1 1 1 1 1 1 1 1 1 0\n",
                "0 held 1\n1 broken 1\n",
            ),
            (
                "0 m - - 0 -\n1 m - - 1 -\n2 s 0 5 0 1\n",
                "time clamp heel\n0 1 0\n2 1 1\n4 1 0\n4 0 0\n9 1 0\n",
                "0 broken 2\n1 held 2\n2 held 3\n3 broken 3\n4 broken 4\n",
            ),
            (
                "0 m - - 0 -\n1 m - - 1 -\n2 n - - 0 -\n3 a - - 2 1\n4 o - - 3 0\n",
                "time a b\n0 0 0\n1 0 1\n2 1 0\n3 1 1\n",
                "0 broken 4\n1 held 5\n2 held 2\n3 held 2\n",
            ),
            (
                "0 m - - 0 -\n1 p 1 3 0 -\n",
                "time a\n0 1\n0 1\n1 1\n4 0\n8 1\n9 0\n",
                "0 broken 1\n1 broken 1\n2 held 2\n3 held 2\n4 broken 1\n5 held 2\n",
            ),
            (
                "0 m - - 0 -\n1 x 1 3 0 -\n",
                "time a\n0 1\n0 1\n1 1\n4 0\n8 1\n9 0\n",
                "0 broken 1\n1 held 2\n2 broken 2\n3 broken 1\n4 broken 2\n5 open -\n",
            ),
            (
                "0 m - - 0 -\n1 m - - 1 -\n2 u 0 5 0 1\n",
                "time clamp heel\n0 1 0\n5 1 0\n",
                "0 open -\n1 open -\n",
            ),
            (
                "0 m - - 0 -\n1 m - - 1 -\n2 u 0 5 0 1\n",
                "time clamp heel\n0 1 0\n5 1 0\n6 1 0\n",
                "0 broken 3\n1 open -\n2 open -\n",
            ),
            (
                "0 m - - 0 -\n1 m - - 1 -\n2 u 0 5 0 1\n",
                "time clamp heel\n0 1 0\n5 0 0\n",
                "0 broken 4\n1 broken 3\n",
            ),
            (
                "0 m - - 0 -\n1 m - - 1 -\n2 s 3 5 0 1\n",
                "time a b\n0 1 0\n10 1 0\n12 1 1\n16 1 0\n",
                "0 broken 1\n1 broken 1\n2 broken 1\n3 held 3\n",
            ),
            (
                "0 m - - 0 -\n1 s 4294967295 - 0 0\n",
                "time a\n0 1\n4294967294 1\n4294967295 1\n4294967295 0\n",
                "0 broken 1\n1 broken 1\n2 held 4\n3 broken 2\n",
            ),
            (
                "0 m - - 0 -\n1 u 0 4294967295 0 0\n",
                "time a\n1 0\n4294967295 0\n4294967295 1\n",
                "0 broken 3\n1 broken 3\n2 held 2\n",
            ),
        ];
        for (lines, log, rows) in trials {
            rules(&rt, rt.alloc(), lines, log, rows)?;
        }
        Ok(())
    }

    // A text of 16,384 bytes is read, and one more byte is too many.
    #[test]
    fn lengths(rt: HostRuntime) -> Result<(), Fail> {
        let heap = rt.alloc();
        let most = "abc\n".repeat(heap, 4096)?;
        let more = format!(in heap; "x{most}")?;
        faults(
            &rt,
            heap,
            "",
            LOG,
            &[(&most, "29 rules 1 0"), (&more, "27 rules 0 0")],
        )?;
        faults(
            &rt,
            heap,
            RULES,
            "",
            &[(&most, "29 log 1 0"), (&more, "27 log 0 0")],
        )
    }

    // A table has 32 lines, and a log 128 rows.
    #[test]
    fn most_lines_and_rows(rt: HostRuntime) -> Result<(), Fail> {
        let heap = rt.alloc();
        let lines = numbered(heap, 0, 32, " m - - 0 -\n")?;
        let line = numbered(heap, 32, 33, " m - - 0 -\n")?;
        let unknown = numbered(heap, 32, 33, " q - - 0 -\n")?;
        let held = numbered(heap, 0, 128, " held 1\n")?;
        let rows = numbered(heap, 0, 128, " 1\n")?;
        let log = format!(in heap; "time a\n{rows}")?;
        rules(&rt, heap, &lines, &log, &held)?;
        let full = format!(in heap; "{NAMES}{lines}")?;
        faults(
            &rt,
            heap,
            &full,
            LOG,
            &[(&line, "1 rules 34 0"), (&unknown, "1 rules 34 0")],
        )?;
        let before = format!(in heap; "{RULES}{log}")?;
        faults(
            &rt,
            heap,
            &before,
            "",
            &[("128 1\n", "8 log 130 0"), ("126 1\n", "7 log 130 0")],
        )
    }

    // A ruling with more than 4,096 nodes is long.
    #[test]
    fn long_rulings(rt: HostRuntime) -> Result<(), Fail> {
        let heap = rt.alloc();
        let log = "time a\n0 1\n1 0\n";
        let twelve = doubled(heap, 12)?;
        rules(&rt, heap, &twelve, log, "0 held 4095\n1 broken 12\n")?;
        let most = format!(in heap; "{twelve}12 n - - 11 -\n")?;
        rules(&rt, heap, &most, log, "0 broken 4096\n1 held 13\n")?;
        let more = format!(in heap; "{most}13 n - - 12 -\n")?;
        rules(&rt, heap, &more, log, "0 long -\n1 broken 14\n")?;
        let thirty_two = doubled(heap, 32)?;
        rules(&rt, heap, &thirty_two, log, "0 long -\n1 broken 32\n")
    }
}
