//! Evaluation of core forms over a keeping of stobjs: as lists, and in place. Definitions.
#![tactic(auto)]
