// The library for other languages: steps written and checked, and whole sheets, by functions over numbers and slices alone. C calls the
// crate kelfrudd_c, which calls these, and Rust calls these as they are. So kinds and refusals are numbers at this edge, and enums within.
#![tactic(auto)]

mod checking;
mod claim;
mod listed;
mod refusal;
mod row;
mod system_name;
mod whole;
mod writing;

pub use checking::check_step;
pub use whole::check_sheet;
pub use writing::write_step;
