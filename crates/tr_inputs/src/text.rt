// The JSON text of an input.
ghost use Rattle.std.specs.Prelude.{◌≡◌, IfOk, string_bytes};
ghost use Rattle.serde_json.specs.View.{view};
ghost use Rattle.jv_base.specs.Descriptor.{IsMethodDescriptor};
ghost use Rattle.tr_inputs.specs.Texts.{arguments_value, input_value, text_by, IsInputText, ReadsAs, ReadsAsInput};

use crate::arguments::argument_types;
use crate::tree::tree_value;
use jv_base::{Input, Mem, MethodId, Name, Tree};
use serde_json::{Value, json};
use std::alloc::Global;

fn arguments_value(alloc: Global, args: &[Tree], types: &[Name]) -> Mem<Value>
    ensures { IfOk result (λ v. view v ≡ arguments_value args.now types.now) }
{
    let mut values = Vec::with_capacity(alloc, args.len())?;
    for (tree, desc) in args.iter().zip(types.iter()) {
        values.push(tree_value(alloc, tree, desc.as_str().as_bytes())?)?;
    }
    Ok(Value::Array(values))
}

fn input_value(alloc: Global, input: &Input, types: &[Name]) -> Mem<Value>
    ensures { IfOk result (λ v. view v ≡ input_value input.now types.now) }
{
    let args = arguments_value(alloc, input.args.as_slice(), types)?;
    json!(in alloc; {"args": args})
}

fn text_by(alloc: Global, input: &Input, types: &[Name]) -> Mem<String>
    ensures value { IfOk result (λ text. string_bytes text ≡ text_by input.now types.now) }
    ensures reads { IfOk result (λ text. ReadsAs (input_value input.now types.now) (string_bytes text)) }
{
    let value = input_value(alloc, input, types)?;
    value.to_string(alloc)
}

/// An input of an entry as compact JSON. The entry's descriptor tells the types of the arguments; the receiver is there
/// where there is one argument more than the descriptor has parameters.
pub fn input_text(alloc: Global, input: &Input, entry: &MethodId) -> Mem<Name>
    requires { IsMethodDescriptor entry.now.desc }
    ensures value { IfOk result (IsInputText entry.now input.now) }
    ensures reads { IfOk result (ReadsAsInput entry.now input.now) }
{
    let types = argument_types(alloc, entry, input.args.length())?;
    let text = text_by(alloc, input, types.as_slice())?;
    Ok(Name::from_string(text))
}
