//! Commands as abstract evaluation answers them, and when the obligations of abstract stobjs hold. Definitions.
#![tactic(auto)]
