//! Calls, each up to its `;`.
ghost use Rattle.std.specs.Prelude.{IfOk};
ghost use Rattle.c_input.specs.Reads.{Finds, ReadsEvery};
ghost use Rattle.c_statement.specs.Sources.{call_tokens, method_call_tokens, IsCall, IsMethodCall};

use crate::source::{Call, MethodCall};
use c_input::{Input, Piece};
use c_operand::arguments;
use c_place::method_of;
use c_word::callee;
use cy_base::OutOfMemory;
use std::alloc::Global;

pub fn call(alloc: Global, input: &mut Input) -> Result<Option<Call>, OutOfMemory>
    ensures some { IfOk result (λ found. Finds IsCall call_tokens input.old found input.new) }
    ensures every { IfOk result (λ found. ReadsEvery IsCall call_tokens input.old found) }
{
    let Some(word) = input.word() else {
        return Ok(None);
    };
    let Some(callee) = callee(alloc, word)? else {
        return Ok(None);
    };
    let Some(arguments) = arguments(alloc, input)? else {
        return Ok(None);
    };
    if input.fixed(&[Piece::Sign(b";")]) {
        Ok(Some(Call { callee, arguments }))
    } else {
        Ok(None)
    }
}

pub fn method_call(alloc: Global, input: &mut Input) -> Result<Option<MethodCall>, OutOfMemory>
    ensures some { IfOk result (λ found. Finds IsMethodCall method_call_tokens input.old found input.new) }
    ensures every { IfOk result (λ found. ReadsEvery IsMethodCall method_call_tokens input.old found) }
{
    let Some(method) = method_of(input) else {
        return Ok(None);
    };
    let Some(arguments) = arguments(alloc, input)? else {
        return Ok(None);
    };
    if input.fixed(&[Piece::Sign(b";")]) {
        Ok(Some(MethodCall { method, arguments }))
    } else {
        Ok(None)
    }
}
