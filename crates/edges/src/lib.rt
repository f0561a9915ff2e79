// Deal files at the edges of the rules.

#![tactic(auto)]

#[cfg(test)]
mod cases;

#[cfg(test)]
mod tests {
    use crate::cases::{Case, DEALS, LAWFUL, LINES, NUMBERS, ORDER, TAGS, Told};
    use reader::read;
    use std::alloc::{AllocError, Global};
    use std::process::Abort;
    use std::test::Fail;

    fn joined(heap: Global, case: Case) -> Result<Vec<u8>, AllocError> {
        let mut file = Vec::new(heap);
        file.extend_from_slice(case.board)?;
        file.extend_from_slice(case.dealer)?;
        file.extend_from_slice(case.vulnerable)?;
        file.extend_from_slice(case.deal)?;
        file.extend_from_slice(case.more)?;
        Ok(file)
    }

    // What a file answers; nothing if a refusal does not leave the bytes, which hold 9.
    fn tell(file: &[u8]) -> Option<Told> {
        let mut deal = [9; 52];
        match read(file, &mut deal) {
            Ok(number) => Some(Ok((number, deal[51]))),
            Err(fault) => {
                let left = deal.iter().all(|byte| *byte == 9);
                left.then_some(Err((fault.layer(), fault.number(), fault.offset())))
            }
        }
    }

    fn check_cases(rt: &impl Abort, heap: Global, cases: &[Case]) -> Result<(), Fail> {
        for case in cases {
            let file = joined(heap, *case)?;
            assert_eq!(rt; tell(file.as_slice()), Some(case.told));
        }
        Ok(())
    }

    // A lawful file, made so long by lines of comment.
    fn check_length(rt: &impl Abort, heap: Global, length: usize, told: Told) -> Result<(), Fail> {
        let mut file = joined(heap, LAWFUL)?;
        for i in file.len()..length {
            file.push(if i % 100 == 0 { b'\n' } else { b'%' })?;
        }
        assert_eq!(rt; tell(file.as_slice()), Some(told));
        Ok(())
    }

    // A lawful file with one more line, so long.
    fn check_line(rt: &impl Abort, heap: Global, length: usize, told: Told) -> Result<(), Fail> {
        let mut file = joined(heap, LAWFUL)?;
        for _ in 0..length {
            file.push(b'%')?;
        }
        assert_eq!(rt; tell(file.as_slice()), Some(told));
        Ok(())
    }

    #[test]
    fn lines(rt: HostRuntime) -> Result<(), Fail> {
        check_cases(&rt, rt.alloc(), &LINES)
    }

    #[test]
    fn tags(rt: HostRuntime) -> Result<(), Fail> {
        check_cases(&rt, rt.alloc(), &TAGS)
    }

    #[test]
    fn numbers(rt: HostRuntime) -> Result<(), Fail> {
        check_cases(&rt, rt.alloc(), &NUMBERS)
    }

    #[test]
    fn deals(rt: HostRuntime) -> Result<(), Fail> {
        check_cases(&rt, rt.alloc(), &DEALS)
    }

    #[test]
    fn order(rt: HostRuntime) -> Result<(), Fail> {
        check_cases(&rt, rt.alloc(), &ORDER)
    }

    #[test]
    fn lengths(rt: HostRuntime) -> Result<(), Fail> {
        let heap = rt.alloc();
        check_line(&rt, heap, 255, Ok((1, 0)))?;
        check_line(&rt, heap, 256, Err((1, 21, 124)))?;
        check_length(&rt, heap, 65_535, Ok((1, 0)))?;
        check_length(&rt, heap, 65_536, Err((1, 20, 0)))
    }
}
