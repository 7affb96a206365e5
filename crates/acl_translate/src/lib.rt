//! From core forms to terms: a form, functions or a macro are checked, and the terms of what is accepted are put into the
//! table.
#![tactic(auto)]

mod building;
mod function_terms;
mod functions;
mod translating;

pub use function_terms::FunctionTerms;
pub use functions::{translate_clique, translate_macro};
pub use translating::{Expression, translate, translate_constant, translate_expression};
