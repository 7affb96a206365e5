//! Abstract evaluation: an abstract stobj is its abstract list, and an export its logic function; and when lists correspond. Definitions.
#![tactic(auto)]
