ghost use Rattle.std.specs.Prelude.{◌≡◌, ◌≢◌, ◌⊎◌, ◌↔◌, ℕ, List, map, string_bytes, None, MatchOption};
ghost use Rattle.cy_io.specs.Counts.{Rose};
ghost use Rattle.cy_mean.specs.declared.ThinFunction.{ThinFunction};
ghost use Rattle.thin_source.specs.Thin.{IsThin, thin_text};
ghost use Rattle.cyc_top.specs.Command.{IsBuild, module_of};
ghost use Rattle.cyc_top.specs.Build.{Tells, IsUnthin, IsBuilt, IsSoundlyBuilt, IsPartlyBuilt, IsAtMostHeader};
ghost use Rattle.cyc_top.specs.Statuses.{OnVerdict, UnlessWriting};

use crate::build::build;
use crate::command::command;
use crate::status::Status;
use cy_io::{Files, Sink};
use std::alloc::Global;

/// The program's call: the words after its name, the files, and the two streams. The words `build`
/// and a file `NAME.pyx`, with a path before it or without, write `cyc_set.h` and `NAME.c`.
pub fn cyc<F: Files, O: Sink, E: Sink>(
    alloc: Global,
    words: &[String],
    files: &mut F,
    out: &mut O,
    err: &mut E,
) -> Status
    ensures usage { (result ≡ Status.Usage)
        ↔ ((word : List ℕ) → ¬ IsBuild (map string_bytes words.now) word) }
    ensures done { (word : List ℕ) → IsBuild (map string_bytes words.now) word → result ≡ Status.Done →
        IsBuilt word (module_of word) (F.told files.old) (F.told files.new) }
    ensures means_its_source { (word : List ℕ) → IsBuild (map string_bytes words.now) word
        → result ≡ Status.Done →
        IsSoundlyBuilt word (module_of word) (F.told files.old) (F.told files.new) }
    ensures not_built { (word : List ℕ) → IsBuild (map string_bytes words.now) word
        → result ≡ Status.NotBuilt → IsUnthin (F.told files.old) word }
    ensures missing { (word : List ℕ) (k : ℕ) → IsBuild (map string_bytes words.now) word
        → result ≡ Status.Missing k → (k ≡ 0) × MatchOption (F.told files.old)
        (Rose (F.read_faults files.old word) (F.read_faults files.new word))
        (λ before. before word ≡ None) }
    ensures read_fault { (word : List ℕ) (k : ℕ) → IsBuild (map string_bytes words.now) word
        → result ≡ Status.ReadFault k
        → (k ≡ 0) × Rose (F.read_faults files.old word) (F.read_faults files.new word) }

    // What the files are left as, where not both outputs stand.
    ensures write_fault { (word : List ℕ) → IsBuild (map string_bytes words.now) word
        → result ≡ Status.WriteFault
        → IsPartlyBuilt word (module_of word) (F.told files.old) (F.told files.new) }
    ensures cause { result ≡ Status.WriteFault →
        Rose (F.write_faults files.old) (F.write_faults files.new) }
    ensures memory { (word : List ℕ) → IsBuild (map string_bytes words.now) word
        → result ≡ Status.Memory → IsAtMostHeader word (F.told files.old) (F.told files.new) }
    ensures unchanged { UnlessWriting result (F.told files.new ≡ F.told files.old) }

    // No count rises where the command is carried out or refused, and the streams gain nothing.
    ensures counts { OnVerdict result ((F.write_faults files.new ≡ F.write_faults files.old)
        × (F.read_faults files.new ≡ F.read_faults files.old)) }
    ensures out_same { out.new ≡ out.old }
    ensures err_same { err.new ≡ err.old }

    ensures complete { (word : List ℕ) (thin : ThinFunction)
        → IsBuild (map string_bytes words.now) word → IsThin thin
        → Tells (F.told files.old) word (thin_text thin)
        → ¬ Rose (F.read_faults files.old word) (F.read_faults files.new word)
        → ¬ Rose (F.write_faults files.old) (F.write_faults files.new)
        → (result ≡ Status.Done) ⊎ (result ≡ Status.Memory) }
{
    match command(words) {
        Some(command) => build(alloc, &command, files),
        None => Status::Usage,
    }
}
