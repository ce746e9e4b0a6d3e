//! What holds for each run of the machine.
#![tactic(auto)]

mod laws;
#[cfg(test)]
mod tests;

pub use laws::{
    ended_runs_stay, faults_change_nothing, more_steps_add_events, settled_states_stay,
};
