// The flow of a method of a class.
ghost use Rattle.std.specs.Prelude.{◌≡◌, ◌++◌, IfOk, OnOk, map};
ghost use Rattle.std.specs.List.{flat_map};
ghost use Rattle.ck_shapes.specs.Methods.{locals_of, start_locals, is_static, handler_of, code_flow, method_flow};

use crate::flow::{Flow, Handler};
use crate::locals::Locals;
use crate::shape::{Limits, Shape, ValueType};
use crate::signature::{Signature, read_signature};
use crate::stack::Stack;
use crate::step::steps_of;
use cf_class::{ClassFile, Code, code_in, member_in};
use cf_code::Row;
use cf_pool::PoolEntry;
use jv_base::MethodId;
use jv_list::{List, Mem};
use std::alloc::Global;

/// The flag of a method that has no object (JVM Specification SE 8, 4.6).
const STATIC: u16 = 0x0008;

fn is_static(flags: u16) -> bool
    ensures { result ≡ is_static flags }
{
    flags & STATIC != 0
}

/// Puts the locals that a value takes at the end.
fn put_local(locals: &mut List<Option<ValueType>>, of: ValueType) -> Mem<()>
    ensures { OnOk result (locals.new ≡ locals.old ++ locals_of of) }
{
    locals.add(Some(of))?;
    if of == ValueType::Long {
        locals.add(None)?;
    }
    Ok(())
}

/// Puts the locals that values take at the end.
fn put_locals(locals: &mut List<Option<ValueType>>, types: &[ValueType]) -> Mem<()>
    ensures { OnOk result (locals.new ≡ locals.old ++ flat_map locals_of types.now) }
{
    for of in types {
        put_local(locals, *of)?;
    }
    Ok(())
}

/// The locals where a frame begins: its object unless the method is static, and the parameters.
fn start_locals(
    alloc: Global,
    without_object: bool,
    parameters: &[ValueType],
) -> Mem<List<Option<ValueType>>>
    ensures { IfOk result (λ locals. locals ≡ start_locals without_object parameters.now) }
{
    let mut locals = List::new(alloc);
    if !without_object {
        locals.add(Some(ValueType::Reference))?;
    }
    put_locals(&mut locals, parameters)?;
    Ok(locals)
}

/// The handlers of an exception table.
fn handlers_of(alloc: Global, rows: &[Row]) -> Mem<List<Handler>>
    ensures { IfOk result (λ handlers. handlers ≡ map handler_of rows.now) }
{
    let mut handlers = List::with_capacity(alloc, rows.len())?;
    for row in rows {
        handlers.add(Handler {
            start: row.start,
            end: row.end,
            handler: row.handler,
        })?;
    }
    Ok(handlers)
}

/// The flow that a Code is, in a method that is static or not and has these types.
fn code_flow(
    alloc: Global,
    pool: &[PoolEntry],
    without_object: bool,
    types: &Signature,
    code: &Code,
) -> Mem<Flow>
    ensures { IfOk result (λ flow. flow ≡ code_flow pool.now without_object types.now code.now) }
{
    let locals = start_locals(alloc, without_object, types.parameters.as_slice())?;
    Ok(Flow {
        steps: steps_of(alloc, pool, types.result, code.code.as_slice())?,
        handlers: handlers_of(alloc, code.rows.as_slice())?,
        limits: Limits {
            max_stack: code.max_stack,
            max_locals: code.max_locals,
        },
        start: Shape {
            locals: Locals::new(alloc, locals.as_slice())?,
            stack: Stack::new(alloc),
        },
    })
}

/// The flow of a method of a class, which is known by its name and its descriptor. None where the method has no code, or
/// a float or a double in its descriptor.
pub fn method_flow(alloc: Global, class: &ClassFile, method: &MethodId) -> Mem<Option<Flow>>
    ensures { IfOk result (λ o. o ≡ method_flow class.now method.now) }
{
    let Some(member) = member_in(class.methods.as_slice(), &method.name, &method.desc) else {
        return Ok(None);
    };
    let Some(code) = code_in(member.attributes.as_slice()) else {
        return Ok(None);
    };
    let Some(types) = read_signature(alloc, method.desc.as_str().as_bytes())? else {
        return Ok(None);
    };
    let pool = class.pool.entries.as_slice();
    let flow = code_flow(alloc, pool, is_static(member.flags), &types, code)?;
    Ok(Some(flow))
}
