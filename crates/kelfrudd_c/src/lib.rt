// What the static library exports. Each function is one call, with the clauses of the function that it calls: C has numbers and
// slices alone, and a crate is a static library or one that Rust code uses.
#![tactic(auto)]

ghost use Rattle.std.specs.Prelude.{◌≡◌, ◌/◌, length};
ghost use Rattle.binary32.specs.Operations.{operation_of};
ghost use Rattle.hints.specs.Writer.{written};
ghost use Rattle.kelfrudd.specs.Checked.{hints_in, checked_by, checked_in, checked_number, checked_places};
ghost use Rattle.kelfrudd.specs.Listed.{ran_to};
ghost use Rattle.kelfrudd.specs.Whole.{concluded_in, sheet_number, sheet_places};
ghost use Rattle.kelfrudd.specs.Written.{written_number, written_places};

use kelfrudd::{check_sheet, check_step, write_step};

#[unsafe(no_mangle)]
pub extern "C" fn kelfrudd_write_step(code: u32, first: u32, second: u32, out: &mut [u64]) -> u32
    ensures reply { result ≡ written_number (length out.old) (written code first second) }
    ensures after { out.new ≡ written_places (written code first second) out.old }
{
    write_step(code, first, second, out)
}

#[unsafe(no_mangle)]
pub extern "C" fn kelfrudd_check_step(
    system: u32,
    code: u32,
    first: u32,
    second: u32,
    claimed: u32,
    hints: &[u64],
    named: &mut [u64],
) -> u32
    ensures reply { result ≡ checked_number (length named.old) (length hints.now) (checked_in system (checked_by (operation_of code) first second (record { bits = claimed }) (hints_in hints.now))) }
    ensures after { named.new ≡ checked_places named.old (length hints.now) (checked_in system (checked_by (operation_of code) first second (record { bits = claimed }) (hints_in hints.now))) }
{
    check_step(system, code, first, second, claimed, hints, named)
}

#[unsafe(no_mangle)]
pub extern "C" fn kelfrudd_check_sheet(
    system: u32,
    serial: u32,
    weight: u64,
    numbers: &[u64],
    told: &mut [u64],
) -> u32
    ensures reply { result ≡ sheet_number (length told.old) (length numbers.now) (concluded_in system (ran_to serial weight numbers.now (length numbers.now / 10))) }
    ensures after { told.new ≡ sheet_places told.old (length numbers.now) (concluded_in system (ran_to serial weight numbers.now (length numbers.now / 10))) }
{
    check_sheet(system, serial, weight, numbers, told)
}
