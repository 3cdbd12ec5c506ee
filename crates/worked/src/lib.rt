// The worked rows A to H of document 01: a table of cases, and a theorem about it. There is no code here.
#![tactic(auto)]
