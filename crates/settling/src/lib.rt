// Vectors as claims on sheets: each is entered and settled with the word that it expects, and with a damaged one.
#![tactic(auto)]

mod claim;
mod count;
mod settlements;

pub use claim::is_accepted;
pub use count::Claims;
pub use settlements::Settlements;
