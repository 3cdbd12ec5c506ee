// The worksheet host's entries, as C links them.
#![tactic(auto)]

pub mod entries;
