// The lent table: rows of wheels and the kept chassis, read into values and written from them, and the bounds on stored numbers.
#![tactic(auto)]

pub mod layout; // where each number stands
pub mod parts; // the parts of a wheel as numbers
pub mod rows; // a wheel, the chassis and a ground body of what is lent
pub mod bounds; // refusal 2
