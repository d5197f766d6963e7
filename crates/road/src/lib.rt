// One wheel on the ground: document 01's rules 6 to 10 for a single wheel, under the tuning that counts.
#![tactic(auto)]

pub mod contact; // rule 7: the tyre on the ground under it, over bodies
pub mod step; // rules 6 to 10 for one wheel of a drive
