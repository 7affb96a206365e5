//! The value of a core form in the logic, with a budget of calls. Definitions.
#![tactic(auto)]
