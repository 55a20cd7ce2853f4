// Why a verdict is so and what to do, in words on standard error, given what is known of the board that shows it.
#![tactic(auto)]

mod deed;
pub mod ends;
pub mod event;
pub mod flash;
mod form;
mod place;
pub mod refused;
mod say;
