// Layouts and views: the unused ones, and what each must keep to.
#![tactic(auto)]

pub mod layouts;
pub mod views;
