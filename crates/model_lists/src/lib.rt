//! The lists that stobjs stand for, types, layouts, and what generated functions do. Definitions, and laws about them.
#![tactic(auto)]
