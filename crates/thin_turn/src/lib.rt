//! The outside's moves: it starts initialisations, takes entries, enters functions and answers operations.
#![tactic(auto)]

pub mod outside;
pub mod parts;
