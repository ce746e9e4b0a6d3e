//! What holds for each row of the table, for each answer, and for each two objects.
ghost use Rattle.std.specs.Prelude.{◌≡◌, ◌↔◌, ℕ, List, IfSome, IsTrue, length, not, true};
ghost use Rattle.api_model.specs.Rows.{api_table, row_of};
ghost use Rattle.api_model.specs.Answers.{answer_of, fits_of};
ghost use Rattle.api_model.specs.InForm.{can_answer};
ghost use Rattle.api_model.specs.Objects.{same_obj};
ghost use Rattle.api_model.specs.declared.object.Obj.{Obj as ObjValue};
ghost use Rattle.api_model.specs.declared.op.Op.{Op as OpValue};
ghost use Rattle.api_model.specs.declared.entry.Entry.{Entry as EntryValue};
ghost use Rattle.api_model.specs.RowLaws.{are_distinct, may_have_error, may_lack_lock};

/// The table has 77 functions, and no two have one name.
#[tactic(auto, using(crate::proofs::RowLaws::table_size, crate::proofs::RowLaws::table_distinct))]
pub fn functions_are_distinct()
    ensures size { length api_table ≡ 77 }
    ensures distinct { are_distinct api_table ≡ true }
{}

/// Each row with an entry needs the lock.
#[tactic(auto, using(crate::proofs::RowLaws::entry_rows))]
pub fn entries_need_the_lock()
    ensures { (name : List ℕ) → IfSome (row_of name) (λ r. r.entry ≡ true → r.lock ≡ true) }
{}

/// Each row needs the lock, save the two that take it.
#[tactic(auto, using(crate::proofs::RowLaws::lock_rows))]
pub fn rows_need_the_lock()
    ensures { (name : List ℕ) → IfSome (row_of name) (λ r. r.lock ≡ not (may_lack_lock name)) }
{}

/// Each row needs that no exception is set, save the error rows, the counts and the four lock calls.
#[tactic(auto, using(crate::proofs::RowLaws::clean_rows))]
pub fn rows_are_clean()
    ensures { (name : List ℕ) → IfSome (row_of name) (λ r. r.clean ≡ not (may_have_error name)) }
{}

/// Each operation has an answer that it can have, whatever the entry is: what never fails raises nothing, what gives
/// an object gives no number, and a number is in its range.
#[tactic(auto, using(crate::proofs::InForm::answer_fits))]
pub fn answers_are_in_form()
    ensures { (o : OpValue) (e : EntryValue) (instances views : ℕ) → can_answer (fits_of o) (answer_of o e instances views) ≡ true }
{}

/// The test of two objects says that they are one exactly where they are equal. A law; it does nothing.
pub fn one_object_is_an_equal_one()
    ensures { (x y : ObjValue) → IsTrue (same_obj x y) ↔ (x ≡ y) }
{}
