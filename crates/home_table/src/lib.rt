// Which unit is the home of each logical number, and which is left over: a look at the headers.
#![tactic(auto)]

pub use homes::{Housing, homes_of};
pub use store::Store;

mod claim; // claim.rt: who claims a logical number
mod homes; // homes.rt: the homes, and the unit left over
mod store; // store.rt: an image, unit by unit
