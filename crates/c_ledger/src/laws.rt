//! What holds for each ledger.
ghost use Rattle.std.specs.Prelude.{List};
ghost use Rattle.api_model.specs.declared.object.Obj.{Obj as ObjValue};
ghost use Rattle.c_ledger.specs.Counted.{IsCounted};
ghost use Rattle.c_ledger.specs.Ledger.{Accounts};
ghost use Rattle.c_ledger.specs.Newest.{AreTogether};

/// One reference more or less changes the count of its object alone, by one. A law; it does nothing.
pub fn references_are_counted()
    ensures { (own : List ObjValue) → IsCounted own }
{}

/// The frames by number and the frames with the newest first go together. A law; it does nothing.
pub fn newest_frames_come_first()
    ensures { (l : Accounts) → AreTogether l }
{}
