// Steps as lines of text: an operation's name and its words, as `add 3F800000 33800000` or `root 40000000`.
#![tactic(auto)]

mod fault;
mod line;
mod name;
mod numeral;
mod reader;

pub use fault::Fault;
pub use line::{Request, read_step};
pub use name::{name_of, operation_named};
pub use numeral::{Numeral, digit, digits, read_word};
pub use reader::Reader;

#[cfg(test)]
mod tests {
    use super::*;
    use binary32::Word;
    use std::process::Abort;
    use std::test::Fail;

    fn is_step(
        rt: &impl Abort,
        line: &[u8],
        name: &str,
        first: u32,
        second: u32,
    ) -> Result<(), Fail> {
        let step = read_step(line)?;
        assert_eq!(rt; name_of(step.operation), name);
        assert_eq!(rt; step.first.bits, first);
        assert_eq!(rt; step.second.bits, second);
        Ok(())
    }

    fn is_fault(rt: &impl Abort, line: &[u8], fault: Fault) -> Result<(), Fail> {
        assert_eq!(rt; read_step(line), Err(fault));
        Ok(())
    }

    #[test]
    fn steps(rt: HostRuntime) -> Result<(), Fail> {
        is_step(
            &rt,
            b"add 3F800000 33800000",
            "add",
            0x3f80_0000,
            0x3380_0000,
        )?;
        is_step(&rt, b"sub 00000001 80000000", "sub", 1, 0x8000_0000)?;
        is_step(
            &rt,
            b"mul FFFFFFFF 89ABCDEF",
            "mul",
            0xffff_ffff,
            0x89ab_cdef,
        )?;
        is_step(
            &rt,
            b"div 40400000 40000000",
            "div",
            0x4040_0000,
            0x4000_0000,
        )?;
        is_step(&rt, b"root 40000000", "root", 0x4000_0000, 0)?;
        is_step(&rt, b"equal 00000000 80000000", "equal", 0, 0x8000_0000)?;
        is_step(
            &rt,
            b"less 3F800000 7F800000",
            "less",
            0x3f80_0000,
            0x7f80_0000,
        )?;
        is_step(&rt, b"atmost 7FC00000 00000000", "atmost", 0x7fc0_0000, 0)
    }

    #[test]
    fn faults(rt: HostRuntime) -> Result<(), Fail> {
        is_fault(&rt, b"", Fault::UnknownOperation)?;
        is_fault(&rt, b"ADD 3F800000 33800000", Fault::UnknownOperation)?;
        is_fault(&rt, b"add", Fault::MissingWord { column: 4 })?;
        is_fault(&rt, b"add 3F800000", Fault::MissingWord { column: 13 })?;
        is_fault(&rt, b"add ", Fault::BadDigit { column: 5 })?;
        is_fault(&rt, b"add 3f800000 33800000", Fault::BadDigit { column: 6 })?;
        is_fault(&rt, b"add 3F800000 338000", Fault::BadDigit { column: 20 })?;
        is_fault(&rt, b"root 40000000 ", Fault::TrailingText { column: 14 })
    }

    #[test]
    fn places(rt: HostRuntime) -> Result<(), Fail> {
        let mut reader = Reader::new(b"from 3F800000 40000000");
        assert_eq!(rt; reader.skip(b"into "), false);
        assert_eq!(rt; reader.skip(b"from "), true);
        assert_eq!(rt; reader.word(), Ok(Word { bits: 0x3f80_0000 }));
        assert_eq!(rt; reader.end(), Err(Fault::TrailingText { column: 14 }));
        assert_eq!(rt; reader.operand(), Ok(Word { bits: 0x4000_0000 }));
        assert_eq!(rt; reader.end(), Ok(()));
        assert_eq!(rt; reader.operand(), Err(Fault::MissingWord { column: 23 }));
        Ok(())
    }
}
