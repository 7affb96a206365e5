//! Commands, sessions, lines and the output of a whole input. Definitions, and laws about them.
#![tactic(auto)]
