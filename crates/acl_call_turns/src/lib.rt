//! The turns of calls of functions: entered, their guards' values, and left, by values and by stops.
#![tactic(auto)]

mod close;
mod enter;
mod form;
mod leave;
mod written;

pub use close::{close_call, close_exec, close_export};
pub use enter::{call_function, enter_function, hand_actuals_over};
pub use leave::{resume_body, resume_export, resume_guard};
pub use written::{body_of, formals_of, name_of};
