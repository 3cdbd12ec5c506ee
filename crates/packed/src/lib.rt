// A row as packed bytes, and back: definitions in specs/, both round trips in proofs/. The code is in `codec`.
#![tactic(auto)]
