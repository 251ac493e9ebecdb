// Whole loads, from text to text: faults of every kind, and the examples of the rules.
#![tactic(auto)]

#[cfg(test)]
mod tests {
    use faults::LONGEST_INPUT;
    use input::answer;
    use runner::answer_load;
    use std::io::{self, Read};
    use std::process::Abort;
    use std::test::Fail;

    // The output behind its name line.
    fn answers(rt: &(impl Abort + AllocGlobal), input: &str, expected: &str) -> Result<(), Fail> {
        let output = answer_load(input.as_bytes(), rt.alloc())?;
        let whole = format!(in rt.alloc(); "line state number at\n{expected}")?;
        assert_eq!(rt; output, whole);
        Ok(())
    }

    #[test]
    fn text_faults(rt: HostRuntime) -> Result<(), Fail> {
        answers(&rt, "", "1 no 41 0\n")?;
        answers(&rt, "call a b c\nfill - - - -\n", "1 no 41 0\n")?;
        answers(&rt, "call a b c c\n", "1 no 41 0\n")?;
        answers(&rt, "call a b c d", "")?;
        answers(&rt, "call a b c d\n\n", "2 no 42 0\n")?;
        answers(
            &rt,
            "call a b c d\nfill - - -\nfill - - - - \n",
            "2 no 42 0\n3 no 42 0\n",
        )?;
        answers(
            &rt,
            "call a b c d\nfil - - - -\nFill - - - -\n",
            "2 no 43 0\n3 no 43 0\n",
        )?;
        answers(
            &rt,
            "call a b c d\nfill 0 - - -\nnum 0 - - -\ncopy 1 2 3 -\nmap 0 1 31 -31\n",
            "2 no 44 1\n3 no 44 2\n4 no 44 3\n5 no 44 4\n",
        )
    }

    // The columns may stand in any order; a position is that of the column's name.
    #[test]
    fn columns(rt: HostRuntime) -> Result<(), Fail> {
        answers(
            &rt,
            "d c b a call\n- - -7 3 num\n- - - 3 value\n- - 2147483648 0 num\n- - - 32 clear",
            "2 ok 0 0\n3 ok -7 0\n4 no 44 2\n5 no 11 1\n",
        )
    }

    #[test]
    fn refusals(rt: HostRuntime) -> Result<(), Fail> {
        answers(
            &rt,
            "call a b c d\nnum 0 536870912 - -\nmap 0 33 31 31\nlayout 1 33 0 -\npart 1 2 4 -\nlayout 1 3 0 -\nraws 0 - - -\n",
            "2 no 12 2\n3 no 15 2\n4 no 13 2\n5 no 14 3\n6 no 21 3\n7 no 21 1\n",
        )?;
        answers(
            &rt,
            "call a b c d\nmap 0 1 31 31\nlayout 1 32 0 -\nrecord 2 1 - -\nrecord 3 1 - -\nload 3 2 32 -\nload 3 2 0 -\nrawload 2 1 - -\nraws 1 - - -\nfigure 2 - - -\n",
            "2 ok 0 0\n3 ok 0 0\n4 ok 0 0\n5 no 31 0\n6 no 22 3\n7 no 23 3\n8 no 23 2\n9 ok 1 0\n10 ok 32 0\n",
        )
    }

    // A record in its own field is garbage all the same; one that a map has as its name is not.
    #[test]
    fn reachability(rt: HostRuntime) -> Result<(), Fail> {
        answers(
            &rt,
            "call a b c d\nmap 0 1 31 31\nlayout 1 3 0 -\nrecord 2 1 - -\nsave 2 1 2 -\nclear 2 - - -\ncollect - - - -\n",
            "2 ok 0 0\n3 ok 0 0\n4 ok 0 0\n5 ok 0 0\n6 ok 0 0\n7 ok 9 0\n",
        )?;
        answers(
            &rt,
            "call a b c d\nmap 0 1 31 31\nlayout 1 3 0 -\nrecord 2 1 - -\nmap 5 0 2 31\nclear 0 - - -\nclear 1 - - -\nclear 2 - - -\ncollect - - - -\n",
            "2 ok 0 0\n3 ok 0 0\n4 ok 0 0\n5 ok 0 0\n6 ok 0 0\n7 ok 0 0\n8 ok 0 0\n9 ok 19 0\n",
        )
    }

    // What is written for an input, from a reader to a writer.
    fn told(rt: &impl AllocGlobal, input: &[u8]) -> Result<Vec<u8>, Fail> {
        let mut output = Vec::new(rt.alloc());
        answer(input, &mut output, rt.alloc())?;
        Ok(output)
    }

    // The longest input is a load, whose last three lines are empty; with a byte more it is none.
    #[test]
    fn longest_input(rt: HostRuntime) -> Result<(), Fail> {
        let calls = "collect - - - -\n".repeat(rt.alloc(), 4095)?;
        let input = format!(in rt.alloc(); "call a b c d\n{calls}\n\n\n\n")?;
        let bytes = input.as_bytes();
        assert_eq!(rt; bytes.len(), LONGEST_INPUT + 1);
        let fault = told(&rt, bytes)?;
        assert_eq!(rt;
            str::from_utf8(fault.as_slice()),
            Ok("line state number at\n0 no 40 0\n")
        );
        let longest = bytes.get(..LONGEST_INPUT).ok_or("too short")?;
        let answers = told(&rt, longest)?;
        let last = b"\n4096 ok 0 0\n4097 no 42 0\n4098 no 42 0\n4099 no 42 0\n";
        assert!(rt; answers.as_slice().ends_with(last));
        Ok(())
    }

    // Gives its bytes, and then an error in place of their end.
    #[derive(Drop)]
    struct Breaking<'a> {
        bytes: &'a [u8],
    }

    impl<'a> Read for Breaking<'a> {
        fn read(&mut self, buf: &mut [u8]) -> io::Result<usize> {
            if self.bytes.is_empty() {
                return Err(io::Error::from(io::ErrorKind::BrokenPipe));
            }
            self.bytes.read(buf)
        }
    }

    // Of an input that breaks off nothing is told, though what was read of it is a load.
    #[test]
    fn broken_input(rt: HostRuntime) -> Result<(), Fail> {
        let reader = Breaking {
            bytes: b"call a b c d\nfill - - - -\n",
        };
        let mut output = Vec::new(rt.alloc());
        let answered = answer(reader, &mut output, rt.alloc());
        assert!(rt; answered.is_err_and(|e| e.kind() == io::ErrorKind::BrokenPipe));
        assert!(rt; output.is_empty());
        Ok(())
    }
}
