// The types of the row check: kinds, checks with their numbers, members, verdicts. What is said of them stands in specs/ and is proved in proofs/. The code is in `cellrules`, `acceptance`, `governing`, `checks` and `rowcheck`.
#![tactic(auto)]

pub mod check;
pub mod kind;
pub mod member;
pub mod verdict;
