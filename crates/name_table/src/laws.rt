ghost use Rattle.std.specs.Prelude.{List};
ghost use Rattle.name_table.specs.Entries.{Entry};
ghost use Rattle.name_table.specs.Laws.{SaySame};

/// What a name means among the first entries of names is what it means among all entries. A law; it does nothing.
pub fn first_entries_say_the_same()
    ensures { (entries : List Entry) → SaySame entries }
{}
