//! The board of a search that lists answers, with its journal, which keeps no answer.
#![tactic(auto)]

pub mod ledger;
