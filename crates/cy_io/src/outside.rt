ghost use Rattle.std.specs.Prelude.{◌≡◌, ◌≤◌, ◌++◌, ℕ, List, length, take, Option, Some, None, MatchOption, IfSome, IsSomeAnd, option_map};
ghost use Rattle.cy_io.specs.Answers.{IfBytes, UnlessReadFault, UnlessFailed};
ghost use Rattle.cy_io.specs.Counts.{Rose};
ghost use Rattle.cy_io.specs.Told.{FileMap, BothTold, SameElsewhere, IsWritten, IsPartlyAppended};

use crate::answers::{ReadAnswer, WriteAnswer};
use std::alloc::Global;

/// Files by name, some of which tell what they hold. The project's own.
pub trait Files {
    // The bytes of each name, where the files tell them.
    ghost told: { Self → Option FileMap };

    // How often reads of each name have failed.
    ghost read_faults: { Self → List ℕ → ℕ };

    // How often writes have failed.
    ghost write_faults: { Self → ℕ };

    /// The bytes of the file `name`, or its first `limit` bytes where it is longer.
    fn read(&mut self, alloc: Global, name: &[u8], limit: usize) -> ReadAnswer
        ensures told_same { told self.new ≡ told self.old }
        ensures bytes { IfBytes result (λ bytes. IfSome (told self.old) (λ files.
            IsSomeAnd (files name.now) (λ file. bytes ≡ take limit file))) }
        ensures within { IfBytes result (λ bytes. length bytes ≤ limit) }
        ensures absent { result ≡ ReadAnswer.Absent → MatchOption (told self.old)
            (Rose (read_faults self.old name.now) (read_faults self.new name.now))
            (λ files. files name.now ≡ None) }
        ensures failed { result ≡ ReadAnswer.Failed →
            Rose (read_faults self.old name.now) (read_faults self.new name.now) }
        ensures read_counts_kept { UnlessReadFault (told self.old) result
            (read_faults self.new ≡ read_faults self.old) }
        ensures read_counts_grow { (other : List ℕ) →
            read_faults self.old other ≤ read_faults self.new other }
        ensures write_count_same { write_faults self.new ≡ write_faults self.old };

    /// Makes `bytes` the file `name`. After `Failed` that file may hold anything.
    fn write(&mut self, alloc: Global, name: &[u8], bytes: &[u8]) -> WriteAnswer
        ensures done { result ≡ WriteAnswer.Done →
            BothTold (told self.old) (told self.new) (IsWritten name.now bytes.now) }
        ensures failed { result ≡ WriteAnswer.Failed →
            BothTold (told self.old) (told self.new) (SameElsewhere name.now) }
        ensures fault { result ≡ WriteAnswer.Failed →
            Rose (write_faults self.old) (write_faults self.new) }
        ensures memory { result ≡ WriteAnswer.Memory → told self.new ≡ told self.old }
        ensures write_count_kept { UnlessFailed result
            (write_faults self.new ≡ write_faults self.old) }
        ensures write_count_grows { write_faults self.old ≤ write_faults self.new }
        ensures read_counts_same { read_faults self.new ≡ read_faults self.old };
}

/// What bytes are put into, one after the other. Some sinks tell what they hold. The project's own.
pub trait Sink {
    // The bytes so far, where the sink tells them.
    ghost held: { Self → Option (List ℕ) };

    // How often puts have failed.
    ghost faults: { Self → ℕ };

    /// Appends `bytes`. After `Failed` the first of them may stand there.
    fn put(&mut self, bytes: &[u8]) -> WriteAnswer
        ensures done { result ≡ WriteAnswer.Done →
            held self.new ≡ option_map (λ before. before ++ bytes.now) (held self.old) }
        ensures failed { result ≡ WriteAnswer.Failed →
            BothTold (held self.old) (held self.new) (IsPartlyAppended bytes.now) }
        ensures fault { result ≡ WriteAnswer.Failed → Rose (faults self.old) (faults self.new) }
        ensures memory { result ≡ WriteAnswer.Memory → held self.new ≡ held self.old }
        ensures count_kept { UnlessFailed result (faults self.new ≡ faults self.old) }
        ensures count_grows { faults self.old ≤ faults self.new };
}
