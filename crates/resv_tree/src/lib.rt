//! A roster in a balanced tree: a search tree in which the two sides of each node differ by one level at most (an
//! AVL tree). A node keeps its height, how many members stand at it and below it, their airtime in each sub-band, and the
//! greatest own hour among them, of which it may owe a part to what stands below it. So each call costs a few walks from the root
//! down, but for those that list, build or drop members, which cost as many steps as there are of these.
#![tactic(auto)]

mod build;
mod change;
mod entry;
mod forks;
mod hours;
mod join;
mod kept;
mod look;
mod node;
mod owed;
mod stretch;
mod sums;
mod told;
mod tree_roster;

pub use tree_roster::TreeRoster;
