// The dowel joint: layout, dowel count, joint length.
#![tactic(auto)]

pub mod joint;
