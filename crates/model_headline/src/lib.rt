//! What this repository is for, as statements over the definitions alone: begin here.
#![tactic(auto)]
