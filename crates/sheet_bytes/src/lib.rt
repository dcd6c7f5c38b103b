// The bytes of the edition, of layouts and of views: how many a field takes, and writing it.
#![tactic(auto)]

pub mod edition;
pub mod layouts;
pub mod views;
