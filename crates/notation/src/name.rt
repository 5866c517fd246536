// The names of the operations.
ghost use Rattle.std.specs.Prelude.{◌≡◌, true, IfSome, Some};
ghost use Rattle.std.specs.Str.{bytes_eq};
ghost use Rattle.notation.specs.Names.{name_of, with_name, operation_named};

use binary32::Operation;

// The name of an operation, by which it is found again. A function, since `Operation` belongs to a crate that knows no text.
pub fn name_of(operation: Operation) -> &'static str
    ensures name { result.now ≡ name_of operation }
    ensures found { operation_named result.now ≡ Some operation }
{
    match operation {
        Operation::Add => "add",
        Operation::Subtract => "sub",
        Operation::Multiply => "mul",
        Operation::Divide => "div",
        Operation::SquareRoot => "root",
        Operation::Equal => "equal",
        Operation::Less => "less",
        Operation::AtMost => "atmost",
    }
}

// Whether the name is the operation's.
fn is_named(name: &[u8], operation: Operation) -> bool
    ensures test { result ≡ bytes_eq name.now (name_of operation) }
    ensures same { result ≡ true → name_of operation ≡ name.now }
{
    name == name_of(operation).as_bytes()
}

// The first of these operations that has the name. The name is then that operation's.
fn first_named(name: &[u8], operations: &[Operation]) -> Option<Operation>
    ensures value { result ≡ with_name name.now operations.now }
    ensures name { IfSome result (λ o. name_of o ≡ name.now) }
{
    operations
        .iter()
        .copied()
        .find(|operation| is_named(name, *operation))
}

// The operation of a name, if there is one. The name is then that operation's.
pub fn operation_named(name: &[u8]) -> Option<Operation>
    ensures value { result ≡ operation_named name.now }
    ensures name { IfSome result (λ o. name_of o ≡ name.now) }
{
    first_named(name, &Operation::ALL)
}
