#![tactic(auto)]

// Examples of text read and written.
#[cfg(test)]
mod tests {
    use std::test::Fail;
    use text::bytes::{put_bytes, same};
    use text::fields::{Malformed, cut_fields};
    use text::lines::{lines, split_line};
    use text::numbers::{append_number, put_number, read_number, spells};
    use text::slate::Slate;

    #[test]
    fn both_line_ends(rt: HostRuntime) -> Result<(), Fail> {
        let (first, rest) = split_line(b"net,road\r\nexit\nlink\r").ok_or("no line")?;
        assert!(rt; same(first, b"net,road"));
        let (second, rest) = split_line(rest).ok_or("no second line")?;
        assert!(rt; same(second, b"exit"));
        let (third, rest) = split_line(rest).ok_or("no third line")?;
        assert!(rt;
            same(third, b"link\r"),
            "a CR without LF is a byte of its line"
        );
        assert!(rt; split_line(rest).is_none());
        Ok(())
    }

    #[test]
    fn empty_lines(rt: HostRuntime) -> Result<(), Fail> {
        let (first, rest) = split_line(b"\r\n\n").ok_or("no line")?;
        assert!(rt; same(first, b""));
        let (second, rest) = split_line(rest).ok_or("no second line")?;
        assert!(rt; same(second, b""));
        assert!(rt; split_line(rest).is_none());
        Ok(())
    }

    #[test]
    fn lines_in_order(rt: HostRuntime) -> Result<(), Fail> {
        let mut given = lines(b"net,road\r\n\nlink\r");
        assert!(rt; same(given.next().ok_or("no line")?, b"net,road"));
        assert!(rt; same(given.next().ok_or("no second line")?, b""));
        assert!(rt; same(given.next().ok_or("no third line")?, b"link\r"));
        assert!(rt; given.next().is_none());
        assert_eq!(rt; lines(b"").count(), 0);
        Ok(())
    }

    #[test]
    fn lines_numbered(rt: HostRuntime) {
        let mut numbered = lines(b"exit\n\r\n").zip(2u32..);
        assert!(rt; matches!(numbered.next(), Some((b"exit", 2))));
        assert!(rt; matches!(numbered.next(), Some((b"", 3))));
        assert!(rt; numbered.next().is_none());
        let mut last = 0;
        for (_, number) in lines(b"a,b,c\n\r\nd").zip(2u32..) {
            last = number;
        }
        assert_eq!(rt; last, 4);
    }

    #[test]
    fn quoted_fields(rt: HostRuntime) {
        let empty: &[u8] = b"";
        let mut out = [empty; 3];
        assert_eq!(rt; cut_fields(b"\"a,b\",,c d,e", &mut out), Ok(4));
        assert!(rt; same(out[0], b"a,b"));
        assert!(rt; same(out[1], b""));
        assert!(rt; same(out[2], b"c d"));
    }

    #[test]
    fn malformed_fields(rt: HostRuntime) {
        let empty: &[u8] = b"";
        let mut out = [empty; 2];
        assert_eq!(rt;
            cut_fields(b"a,b\"c", &mut out),
            Err(Malformed { field: 2 })
        );
        assert_eq!(rt; cut_fields(b"\"a", &mut out), Err(Malformed { field: 1 }));
        assert_eq!(rt;
            cut_fields(b"a,\"b\"c,d", &mut out),
            Err(Malformed { field: 2 })
        );
        assert_eq!(rt;
            cut_fields(b"a,b,c\r", &mut out),
            Err(Malformed { field: 3 })
        );
    }

    #[test]
    fn numbers_read(rt: HostRuntime) {
        assert_eq!(rt; read_number(b"0"), Some(0));
        assert_eq!(rt; read_number(b"4294967295"), Some(4294967295));
        assert_eq!(rt; read_number(b"4294967296"), None);
        assert_eq!(rt; read_number(b"99999999999999999999999"), None);
        assert_eq!(rt; read_number(b"007"), None);
        assert_eq!(rt; read_number(b""), None);
        assert_eq!(rt; read_number(b"1a"), None);
        assert!(rt; spells(b"65532", 65532));
        assert!(rt; !spells(b"065532", 65532));
    }

    #[test]
    fn numbers_written(rt: HostRuntime) -> Result<(), Fail> {
        let mut buf = *b"........";
        assert_eq!(rt; put_number(&mut buf, 2, 409), Some(5));
        assert_eq!(rt; put_bytes(&mut buf, 5, b"\r\n"), Some(7));
        assert!(rt; same(&buf, b"..409\r\n."));
        assert_eq!(rt; put_number(&mut buf, 6, 100), None);
        assert!(rt; same(&buf, b"..409\r\n."));
        let mut list = Vec::new(rt.alloc());
        append_number(&mut list, 0)?;
        append_number(&mut list, 18446744073709551615)?;
        assert!(rt; same(list.as_slice(), b"018446744073709551615"));
        Ok(())
    }

    #[test]
    fn numbers_on_a_slate(rt: HostRuntime) {
        let mut buf = *b"........";
        let mut slate = Slate {
            buf: &mut buf,
            end: 2,
        };
        assert_eq!(rt; slate.put_number(409), Some(()));
        assert_eq!(rt; slate.end, 5);
        assert_eq!(rt; slate.put_bytes(b"\r\n"), Some(()));
        assert_eq!(rt; slate.end, 7);
        assert!(rt; same(slate.buf, b"..409\r\n."));
        slate.end = 6;
        assert_eq!(rt; slate.put_number(100), None);
        assert_eq!(rt; slate.end, 6);
        assert!(rt; same(&buf, b"..409\r\n."));
    }

    #[test]
    fn pieces_on_a_slate(rt: HostRuntime) {
        let mut buf = *b"........";
        let mut slate = Slate {
            buf: &mut buf,
            end: 1,
        };
        assert_eq!(rt; slate.put_number(409), Some(()));
        assert_eq!(rt; slate.put_bytes(b"\r\n"), Some(()));
        assert_eq!(rt; slate.end, 6);
        assert!(rt; same(&buf, b".409\r\n.."));
    }
}
