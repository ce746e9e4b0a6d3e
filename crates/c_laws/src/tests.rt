use crate::{ended_runs_stay, faults_change_nothing, more_steps_add_events, settled_states_stay};

#[test]
fn laws_are_called() {
    more_steps_add_events();
    ended_runs_stay();
    faults_change_nothing();
    settled_states_stay();
}
