// What yardcheck tells of texts on both sides of every limit of the symbols.
#![tactic(auto)]

#[cfg(test)]
mod tests {
    use report::report;
    use std::process::Abort;
    use std::test::Fail;

    fn tells(rt: &(impl Abort + AllocGlobal), text: &[u8], line: &str) -> Result<(), Fail> {
        let told = report(rt.alloc(), text)?;
        assert_eq!(rt; told.as_str(), line);
        Ok(())
    }

    #[test]
    fn short_texts(rt: HostRuntime) -> Result<(), Fail> {
        let table: [(&[u8], &str); 56] = [
            // nothing, and the bytes that a text may have
            (b"", "0 symbols"),
            (b"\t\n\r ", "0 symbols"),
            (b" \x08", "fault 2 reader 1"),
            (b"\x0b", "fault 2 reader 0"),
            (b"\x0c", "fault 2 reader 0"),
            (b"\x1f", "fault 2 reader 0"),
            (b"x\x7f", "fault 2 reader 1"),
            (b"x \x80", "fault 2 reader 2"),
            (b"!", "fault 2 reader 0"),
            (b"a_b", "fault 2 reader 1"),
            (b"'a'", "fault 2 reader 0"),
            (b"~", "fault 2 reader 0"),
            // names and reserved words
            (b"a A1 b2c", "3 symbols"),
            (b"aaaaaaaaaaaaaaaaaaaaaaaa", "1 symbols"),
            (b"aaaaaaaaaaaaaaaaaaaaaaaaa", "fault 2 reader 0"),
            (b"; aaaaaaaaaaaaaaaaaaaaaaaathen", "fault 2 reader 2"),
            (b"BEGIN Begin begin", "3 symbols"),
            // numbers
            (b"2147483647", "1 symbols"),
            (b"2147483648", "fault 2 reader 0"),
            (b"-2147483648", "fault 2 reader 1"),
            (b"17777777777B", "1 symbols"),
            (b"20000000000B", "fault 2 reader 0"),
            (b"00000000000000000000017b", "1 symbols"),
            (b"8B", "fault 2 reader 0"),
            (b"18B", "fault 2 reader 0"),
            (b"12x", "fault 2 reader 0"),
            (b"1B2", "fault 2 reader 0"),
            (b"1then", "fault 2 reader 0"),
            (b"1 then", "2 symbols"),
            (b"1\"a\"", "2 symbols"),
            // characters by their number
            (b"177C", "1 symbols"),
            (b"200C", "fault 2 reader 0"),
            (b"000000000177c", "1 symbols"),
            (b"8C", "fault 2 reader 0"),
            (b"17BC", "fault 2 reader 0"),
            (b"C", "1 symbols"),
            // characters in quotes
            (b"\" \" \"~\"", "2 symbols"),
            (b"\"\x1f\"", "fault 2 reader 0"),
            (b"\"\x7f\"", "fault 2 reader 0"),
            (b"\"\t\"", "fault 2 reader 0"),
            (b"\"a", "fault 2 reader 0"),
            (b"\"ab\"", "fault 2 reader 0"),
            (b"\"\"", "fault 2 reader 0"),
            (b"\"\"\"", "fault 2 reader 0"),
            (b"\"\"\"\"", "1 symbols"),
            (b"\"\"\"\"\"", "fault 2 reader 4"),
            (b"\"a\"b", "fault 2 reader 0"),
            (b"\"a\"\"b\"", "2 symbols"),
            // marks: the longest counts
            (b"+-*/=<><<=>=>:=()[].,:;", "19 symbols"),
            (b": = < > < =", "6 symbols"),
            (b"<>=", "2 symbols"),
            (b"*)", "2 symbols"),
            // comments
            (b"(*)", "fault 2 reader 3"),
            (b"(**) x (* (* \" *) y *) z", "2 symbols"),
            (b"(* a (* b *)", "fault 2 reader 12"),
            (b"(* \x01 *)", "fault 2 reader 3"),
        ];
        for (text, line) in table {
            tells(&rt, text, line)?;
        }
        Ok(())
    }

    #[test]
    fn long_texts(rt: HostRuntime) -> Result<(), Fail> {
        let table: [(usize, &[u8], &[u8], &str); 10] = [
            (16384, b" ", b"", "0 symbols"),
            (16385, b" ", b"", "fault 1 reader 16384"),
            (16384, b"+", b"", "16384 symbols"),
            (16384, b"\"", b"", "4096 symbols"),
            (16384, b"0", b"", "1 symbols"),
            (16384, b"a", b"", "fault 2 reader 0"),
            (8192, b"(*", b"", "fault 4 reader 64"),
            (
                32,
                b"(*",
                b"*)*)*)*)*)*)*)*)*)*)*)*)*)*)*)*)*)*)*)*)*)*)*)*)*)*)*)*)*)*)*)*) x",
                "1 symbols",
            ),
            (
                33,
                b"(*",
                b"*)*)*)*)*)*)*)*)*)*)*)*)*)*)*)*)*)*)*)*)*)*)*)*)*)*)*)*)*)*)*)*)*) x",
                "fault 4 reader 64",
            ),
            (
                32,
                b"(*",
                b"*)*)*)*)*)*)*)*)*)*)*)*)*)*)*)*)*)*)*)*)*)*)*)*)*)*)*)*)*)*)*)",
                "fault 2 reader 126",
            ),
        ];
        for (count, part, behind, line) in table {
            // one part so many times, and then another
            let mut text = part.repeat(rt.alloc(), count)?;
            text.extend_from_slice(behind)?;
            tells(&rt, &text, line)?;
        }
        Ok(())
    }
}
