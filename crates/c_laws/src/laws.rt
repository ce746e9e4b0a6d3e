ghost use Rattle.std.specs.Prelude.{ℕ, List};
ghost use Rattle.api_model.specs.declared.entry.Entry.{Entry};
ghost use Rattle.c_tree.specs.declared.item.CFile.{CFile};
ghost use Rattle.c_value.specs.declared.step.FaultKind.{FaultKind};
ghost use Rattle.c_state.specs.declared.state.State.{State};
ghost use Rattle.c_laws.specs.Laws.{ChangesNothing, EndStays, RunsGoOn, StaysSettled};

/// More steps go on from where fewer ended, and only add trace lines at the end. A law; it does nothing.
pub fn more_steps_add_events()
    ensures { (files : List CFile) (script : List Entry) (n k : ℕ) → RunsGoOn files script n k }
{}

/// After its end a run stays. A law; it does nothing.
pub fn ended_runs_stay()
    ensures { (files : List CFile) (script : List Entry) (c : State) → EndStays files script c }
{}

/// A step that faults changes nothing. A law; it does nothing.
pub fn faults_change_nothing()
    ensures { (files : List CFile) (script : List Entry) (c : State) (k : FaultKind) → ChangesNothing files script c k }
{}

/// Settling does nothing where the next move isn't the outside's. A law; it does nothing.
pub fn settled_states_stay()
    ensures { (files : List CFile) (script : List Entry) (c : State) → StaysSettled files script c }
{}
