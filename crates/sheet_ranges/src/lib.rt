// Steps and whole sheets: the empty ones, and what each must keep to.
#![tactic(auto)]

pub mod sheets;
pub mod steps;
