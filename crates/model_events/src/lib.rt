//! Events: functions, macros, constants and packages are defined or refused, each refusal in its order. Definitions.
#![tactic(auto)]
