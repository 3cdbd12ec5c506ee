// Request 2: the design strengths of the host's row, over lent bytes.
#![tactic(auto)]

pub mod host;
