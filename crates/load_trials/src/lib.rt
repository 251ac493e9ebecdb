// Tables of lines for the load text, at the edges of its rules.
#![tactic(auto)]

/// How many tables there are.
pub fn tables() -> u8 {
    4
}

#[cfg(test)]
mod tests {
    use load::calls::parse_line;
    use load::names::{Columns, columns_of};
    use report::loads::open_load;
    use std::test::Fail;

    // The number and the position of a line's fault; 0 and 0, as in the output, where it is a call.
    fn told(columns: &Columns, line: &[u8]) -> (u8, u8) {
        match parse_line(columns, line) {
            Ok(_) => (0, 0),
            Err(fault) => (fault.number(), fault.position()),
        }
    }

    // A line with what is told of it.
    #[test]
    fn lines_under_the_names_in_order(rt: HostRuntime) -> Result<(), Fail> {
        let Ok(columns) = columns_of(b"call a b c d") else {
            return Err(Fail::new("the names"));
        };
        let cases: [(&[u8], u8, u8); 58] = [
            (b"num 0 0 - -", 0, 0),
            (b"clear 0 - - -", 0, 0),
            (b"copy 0 0 - -", 0, 0),
            (b"map 0 0 0 0", 0, 0),
            (b"layout 0 0 0 -", 0, 0),
            (b"record 0 0 - -", 0, 0),
            (b"load 0 0 0 -", 0, 0),
            (b"save 0 0 0 -", 0, 0),
            (b"rawload 0 0 - -", 0, 0),
            (b"rawsave 0 0 0 -", 0, 0),
            (b"kind 0 - - -", 0, 0),
            (b"value 0 - - -", 0, 0),
            (b"same 0 0 - -", 0, 0),
            (b"part 0 0 0 -", 0, 0),
            (b"figure 0 - - -", 0, 0),
            (b"raws 0 - - -", 0, 0),
            (b"collect - - - -", 0, 0),
            (b"fill - - - -", 0, 0),
            (b"Fill - - - -", 43, 0),
            (b"fills - - - -", 43, 0),
            (b"fil - - - -", 43, 0),
            (b"- - - - -", 43, 0),
            (b"0 - - - -", 43, 0),
            (b"f\xc3\xafll - - - -", 43, 0),
            (b"fill\t- - - -", 42, 0),
            (b"", 42, 0),
            (b"fill - - -", 42, 0),
            (b"fill - - - - -", 42, 0),
            (b"fill  - - -", 42, 0),
            (b" fill - - - -", 42, 0),
            (b"fill - - - - ", 42, 0),
            (b"bogus  x - -", 42, 0),
            (b"fill - - - -\r", 44, 4),
            (b"fill - - - \xff", 44, 4),
            (b"bogus x - - -", 43, 0),
            (b"clear - - - -", 44, 1),
            (b"clear 0 0 - -", 44, 2),
            (b"clear 0 - 0 -", 44, 3),
            (b"clear 0 - - 0", 44, 4),
            (b"map 0 0 0 -", 44, 4),
            (b"map 0 x y z", 44, 2),
            (b"clear 4294967295 - - -", 0, 0),
            (b"clear 4294967296 - - -", 44, 1),
            (b"clear 0000000031 - - -", 0, 0),
            (b"clear 00000000031 - - -", 44, 1),
            (b"clear -0 - - -", 44, 1),
            (b"clear +1 - - -", 44, 1),
            (b"clear 1x - - -", 44, 1),
            (b"num 0 -0 - -", 0, 0),
            (b"num 0 2147483647 - -", 0, 0),
            (b"num 0 2147483648 - -", 44, 2),
            (b"num 0 -2147483648 - -", 0, 0),
            (b"num 0 -2147483649 - -", 44, 2),
            (b"num 0 -0000000001 - -", 0, 0),
            (b"num 0 -00000000001 - -", 44, 2),
            (b"num 0 -- - -", 44, 2),
            (b"num 0 - - -", 44, 2),
            (b"num -1 -1 - -", 44, 1),
        ];
        for (line, number, at) in cases {
            assert_eq!(rt; told(&columns, line), (number, at));
        }
        Ok(())
    }

    // Positions are those of a to d, wherever the columns stand; 80 bytes are a line, 81 are not.
    #[test]
    fn lines_under_other_names(rt: HostRuntime) -> Result<(), Fail> {
        let Ok(columns) = columns_of(b"d c call b a") else {
            return Err(Fail::new("the names"));
        };
        let cases: [(&[u8], u8, u8); 7] = [
            (b"- - num -7 3", 0, 0),
            (b"- - num 3 -7", 44, 1),
            (b"x - num -7 3", 44, 4),
            (b"x y num - -", 44, 1),
            (b"fill - - - -", 43, 0),
            (
                b"- - xxxxxxxxxxxxxxxxxxxxxxxxxxxxxxxxxxxxxxxxxxxxxxxxxxxxxxxxxxxxxxxxxxxxxxxxx - -",
                42,
                0,
            ),
            (
                b"- - xxxxxxxxxxxxxxxxxxxxxxxxxxxxxxxxxxxxxxxxxxxxxxxxxxxxxxxxxxxxxxxxxxxxxxxx - -",
                43,
                0,
            ),
        ];
        for (line, number, at) in cases {
            assert_eq!(rt; told(&columns, line), (number, at));
        }
        Ok(())
    }

    // An input with the line and the number of what stops it; 0 and 0 where its lines are read, as in the output: tests keep their values.
    #[test]
    fn name_lines(rt: HostRuntime) {
        let cases: [(&[u8], u32, u8); 14] = [
            (b"call a b c d", 0, 0),
            (b"call a b c d\n", 0, 0),
            (b"d c b a call\nfill - - - -", 0, 0),
            (b"", 1, 41),
            (b"\n", 1, 41),
            (b"\ncall a b c d", 1, 41),
            (b"call a b c", 1, 41),
            (b"call a b c d d", 1, 41),
            (b"call a b c c", 1, 41),
            (b"call a b c e", 1, 41),
            (b"Call a b c d", 1, 41),
            (b"call a b c  d", 1, 41),
            (b"call a b c d ", 1, 41),
            (b"call a b c d\r\n", 1, 41),
        ];
        for (input, line, number) in cases {
            let (l, n) = match open_load(input) {
                Ok(_) => (0, 0),
                Err(fault) => (fault.line, fault.fault.number()),
            };
            assert_eq!(rt; l, line);
            assert_eq!(rt; n, number);
        }
    }

    #[test]
    fn longest_input(rt: HostRuntime) -> Result<(), Fail> {
        let mut input = [b'\n'; 65_537];
        input[..12].copy_from_slice(b"call a b c d");
        assert!(rt; open_load(&input[0..65_536]).is_ok());
        match open_load(&input) {
            Ok(_) => Err(Fail::new("too long")),
            Err(fault) => {
                assert_eq!(rt; fault.line, 0);
                assert_eq!(rt; fault.fault.number(), 40);
                assert_eq!(rt; fault.fault.position(), 0);
                Ok(())
            }
        }
    }
}
