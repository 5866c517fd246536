// The eight operations and their codes.
ghost use Rattle.std.specs.Prelude.{◌≡◌};
ghost use Rattle.binary32.specs.Operations.{code_of, is_root, decoded};

// A square root has one operand, the first; each of the others has two.
#[derive(Clone, Copy, PartialEq, Eq, Debug)]
pub enum Operation {
    Add = 1,
    Subtract = 2,
    Multiply = 3,
    Divide = 4,
    SquareRoot = 5,
    Equal = 6,
    Less = 7,
    AtMost = 8,
}

// A code outside 1 to 8 is none of an operation.
#[derive(Clone, Copy, PartialEq, Eq, Debug)]
pub struct UnknownCode;

impl Operation {
    // In the order of their codes.
    pub const ALL: [Operation; 8] = [
        Operation::Add,
        Operation::Subtract,
        Operation::Multiply,
        Operation::Divide,
        Operation::SquareRoot,
        Operation::Equal,
        Operation::Less,
        Operation::AtMost,
    ];

    // Whether it has only one operand.
    pub fn is_root(self) -> bool
        ensures { result ≡ is_root self }
    {
        self == Operation::SquareRoot
    }
}

impl From<Operation> for u32 {
    ghost from_gives = { λ operation code. code ≡ code_of operation };

    fn from(operation: Operation) -> u32 {
        operation as u32
    }
}

impl TryFrom<u32> for Operation {
    type Error = UnknownCode;

    ghost try_from_gives = { λ code found. found ≡ decoded code };

    fn try_from(code: u32) -> Result<Operation, UnknownCode> {
        match code {
            1 => Ok(Operation::Add),
            2 => Ok(Operation::Subtract),
            3 => Ok(Operation::Multiply),
            4 => Ok(Operation::Divide),
            5 => Ok(Operation::SquareRoot),
            6 => Ok(Operation::Equal),
            7 => Ok(Operation::Less),
            8 => Ok(Operation::AtMost),
            _ => Err(UnknownCode),
        }
    }
}
