//! Nogoods that are kept, and what follows from them.
#![tactic(auto)]

pub mod apart;
pub mod front;
pub mod given;
pub mod laws;
pub mod lists;
pub mod looks;
pub mod notes;
pub mod pending;
pub mod propagation;
pub mod rows;
pub mod slots;
pub mod store;
pub mod stored_nogood;
pub mod top_walks;
pub mod unlisting;
pub mod visits;
pub mod walks;
pub mod watch;
pub mod watches;
