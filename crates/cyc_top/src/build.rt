ghost use Rattle.std.specs.Prelude.{◌≡◌, ◌≢◌, ◌⊎◌, ◌^◌, ◌<◌, ◌≤◌, ◌+◌, ◌↔◌, ◌++◌, ℕ, List, length, codes, Some, None, IfSome, IfOk, IsSomeAnd, MatchOption, All};
ghost use Rattle.cy_io.specs.Counts.{Rose};
ghost use Rattle.cy_io.specs.Told.{BothTold, FileMap};
ghost use Rattle.cy_mean.specs.declared.ThinFunction.{ThinFunction};
ghost use Rattle.thin_source.specs.Thin.{IsIdentifier, IsThin, thin_text};
ghost use Rattle.cyc_top.specs.Build.{header_name, c_name, header_text, module_text, AreWritten, ArePartlyWritten, IsAsBeforeOrHeader, Tells, IsUnthin, IsBuilt, IsSoundlyBuilt, IsPartlyBuilt, IsAtMostHeader};
ghost use Rattle.cyc_top.specs.Statuses.{OnVerdict, UnlessWriting};

use crate::command::Build;
use crate::status::Status;
use cy_base::OutOfMemory;
use cy_io::{Files, ReadAnswer, WriteAnswer};
use std::alloc::Global;
use thin_print::print;
use thin_sound::thin;

// One more than a file of sources may have.
const READ_LIMIT: usize = 4_194_305;

// What a build writes: the header, and the module's file with its name.
#[derive(Drop)]
struct Outputs {
    header: Vec<u8>,
    name: Vec<u8>,
    text: Vec<u8>,
}

fn c_name(alloc: Global, name: &[u8]) -> Result<Vec<u8>, OutOfMemory>
    ensures { IfOk result (λ file. file.items ≡ c_name name.now) }
{
    let mut file = Vec::from_slice(alloc, name)?;
    file.extend_from_slice(b".c")?;
    Ok(file)
}

#[tactic(auto, unfolding(crate::specs::Build::header_text, crate::specs::Build::module_text))]
// The outputs of a module, all made before the first is written.
fn make_outputs(alloc: Global, name: &[u8], bytes: &[u8]) -> Result<Option<Outputs>, OutOfMemory>
    ensures found { IfOk result (λ found. IfSome found (λ outputs. (thin : ThinFunction)
        × IsThin thin × (bytes.now ≡ thin_text thin)
        × (outputs.header.items ≡ header_text thin) × (outputs.name.items ≡ c_name name.now)
        × (outputs.text.items ≡ module_text name.now thin))) }
    ensures apart { IfOk result (λ found. IfSome found (λ outputs. outputs.name.items ≢ header_name)) }
    ensures not_found { IfOk result (λ found. found ≡ None
        → (thin : ThinFunction) → IsThin thin → bytes.now ≢ thin_text thin) }
{
    let Some(files) = thin(alloc, name, bytes)? else {
        return Ok(None);
    };
    Ok(Some(Outputs {
        header: print(alloc, &files[0])?,
        name: c_name(alloc, name)?,
        text: print(alloc, &files[1])?,
    }))
}

const HEADER_NAME: &[u8] = b"cyc_set.h";

// Writes the header, and then the module's file.
fn write_outputs<F: Files>(alloc: Global, files: &mut F, outputs: &Outputs) -> Status
    requires { outputs.now.name.items ≢ header_name }
    ensures done { result ≡ Status.Done → BothTold (F.told files.old) (F.told files.new)
        (AreWritten outputs.now.header.items outputs.now.name.items outputs.now.text.items) }
    ensures write_fault { result ≡ Status.WriteFault → BothTold (F.told files.old) (F.told files.new)
        (ArePartlyWritten outputs.now.header.items outputs.now.name.items) }
    ensures cause { result ≡ Status.WriteFault →
        Rose (F.write_faults files.old) (F.write_faults files.new) }
    ensures memory { result ≡ Status.Memory →
        IsAsBeforeOrHeader outputs.now.header.items (F.told files.old) (F.told files.new) }
    ensures others { (result ≡ Status.Done) ⊎ ((result ≡ Status.WriteFault) ⊎ (result ≡ Status.Memory)) }
    ensures counts { result ≡ Status.Done → F.write_faults files.new ≡ F.write_faults files.old }
    ensures reads { F.read_faults files.new ≡ F.read_faults files.old }
{
    match files.write(alloc, HEADER_NAME, outputs.header.as_slice()) {
        WriteAnswer::Done => {}
        WriteAnswer::Failed => return Status::WriteFault,
        WriteAnswer::Memory => return Status::Memory,
    }
    match files.write(alloc, outputs.name.as_slice(), outputs.text.as_slice()) {
        WriteAnswer::Done => Status::Done,
        WriteAnswer::Failed => Status::WriteFault,
        WriteAnswer::Memory => Status::Memory,
    }
}

/// Builds the file of sources that a command names: reads it, makes both outputs, and writes them.
pub fn build<F: Files>(alloc: Global, command: &Build<'_>, files: &mut F) -> Status
    requires { IsIdentifier command.now.module.now }
    ensures done { result ≡ Status.Done →
        IsBuilt command.now.word.now command.now.module.now (F.told files.old) (F.told files.new) }
    ensures means_its_source { result ≡ Status.Done →
        IsSoundlyBuilt command.now.word.now command.now.module.now (F.told files.old) (F.told files.new) }
    ensures not_built { result ≡ Status.NotBuilt → IsUnthin (F.told files.old) command.now.word.now }
    ensures missing { (k : ℕ) → result ≡ Status.Missing k → (k ≡ 0) × MatchOption (F.told files.old)
        (Rose (F.read_faults files.old command.now.word.now) (F.read_faults files.new command.now.word.now))
        (λ before. before command.now.word.now ≡ None) }
    ensures read_fault { (k : ℕ) → result ≡ Status.ReadFault k → (k ≡ 0)
        × Rose (F.read_faults files.old command.now.word.now) (F.read_faults files.new command.now.word.now) }
    ensures no_usage { result ≢ Status.Usage }

    // What the files are left as, where not both outputs stand.
    ensures write_fault { result ≡ Status.WriteFault →
        IsPartlyBuilt command.now.word.now command.now.module.now (F.told files.old) (F.told files.new) }
    ensures cause { result ≡ Status.WriteFault →
        Rose (F.write_faults files.old) (F.write_faults files.new) }
    ensures memory { result ≡ Status.Memory →
        IsAtMostHeader command.now.word.now (F.told files.old) (F.told files.new) }
    ensures unchanged { UnlessWriting result (F.told files.new ≡ F.told files.old) }

    // No count rises where the command is carried out or refused.
    ensures counts { OnVerdict result ((F.write_faults files.new ≡ F.write_faults files.old)
        × (F.read_faults files.new ≡ F.read_faults files.old)) }

    ensures complete { (thin : ThinFunction) → IsThin thin
        → Tells (F.told files.old) command.now.word.now (thin_text thin)
        → ¬ Rose (F.read_faults files.old command.now.word.now) (F.read_faults files.new command.now.word.now)
        → ¬ Rose (F.write_faults files.old) (F.write_faults files.new)
        → (result ≡ Status.Done) ⊎ (result ≡ Status.Memory) }
{
    let bytes = match files.read(alloc, command.word, READ_LIMIT) {
        ReadAnswer::Bytes(bytes) => bytes,
        ReadAnswer::Absent => return Status::Missing(0),
        ReadAnswer::Failed => return Status::ReadFault(0),
        ReadAnswer::Memory => return Status::Memory,
    };
    match make_outputs(alloc, command.module, bytes.as_slice()) {
        Ok(Some(outputs)) => write_outputs(alloc, files, &outputs),
        Ok(None) => Status::NotBuilt,
        Err(OutOfMemory) => Status::Memory,
    }
}
