//! Tables of the labels and statements of a function's lines.
ghost use Rattle.std.specs.Prelude.{◌≡◌, IfOk};
ghost use Rattle.c_frame.specs.Lines.{statements_from};
ghost use Rattle.c_frame.specs.Tables.{AreLabels};

use c_tree::Line;
use cy_base::OutOfMemory;
use std::alloc::Global;
use std::collections::HashMap;

/// The line after each label; of two labels of one name the first counts.
pub fn label_table(alloc: Global, lines: &[Line]) -> Result<HashMap<u32, usize>, OutOfMemory>
    ensures { IfOk result (λ labels. AreLabels lines.now labels) }
{
    let mut labels = HashMap::new(alloc);
    for at in (0..lines.len()).rev() {
        if let Line::Label(label) = lines[at] {
            labels.insert(label, at + 1)?;
        }
    }
    Ok(labels)
}

/// For each line the first statement from it on.
pub fn statement_table(alloc: Global, lines: &[Line]) -> Result<Vec<usize>, OutOfMemory>
    ensures { IfOk result (λ statements. statements.items ≡ statements_from 0 lines.now) }
{
    let mut statements = vec![in alloc; 0usize; lines.len()]?;
    let mut statement = lines.len();
    for at in (0..lines.len()).rev() {
        if let Line::Statement(_) = lines[at] {
            statement = at;
        }
        statements[at] = statement;
    }
    Ok(statements)
}
