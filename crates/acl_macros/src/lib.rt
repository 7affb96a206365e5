//! The definition of a macro as far as its draft: shapes, names, formals and declarations, and the first refusal of these.
#![tactic(auto)]

mod draft;
mod formals;
mod marks;
mod naming;
mod objects;
mod optionals;
mod reading;
mod refusals;
mod sections;
mod shapes;
mod words;
mod written;

pub use draft::MacroDraft;
pub use reading::read_macro;
