// The passes of an aim and of a drive over the wheels of a table: document 01, "A step, in the source's order". Each pass is a loop over a named function.
#![tactic(auto)]

pub mod rows; // passes that change each wheel's row
pub mod chassis; // passes that move the chassis, and the test of refusal 7
