// What all of Apple's tables share: lookup tables and the survey of their order. What stands above leans on the promises made here.
#![tactic(auto)]

pub mod lookup;
pub mod opened;
pub mod records;
pub mod survey;
pub mod units;
pub mod whole;
