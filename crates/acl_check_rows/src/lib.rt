//! Forms that the check accepts and refuses.
#![tactic(auto)]

#[cfg(test)]
mod definitions;
#[cfg(test)]
mod forms;
#[cfg(test)]
mod rows;
#[cfg(test)]
mod sizes;
#[cfg(test)]
mod world;
