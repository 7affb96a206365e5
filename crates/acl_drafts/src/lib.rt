//! The definition of functions as far as its drafts: shapes, names, formals and declarations, and the first refusal of these.
#![tactic(auto)]

mod draft;
mod drafts;
mod fault;
mod names;
mod reading;
mod refusals;
mod shapes;
mod words;
mod written;

pub use draft::Draft;
pub use fault::DraftFault;
pub use names::{has_stars, is_good_name};
pub use reading::read_drafts;
pub use refusals::symbol_or_nil;
