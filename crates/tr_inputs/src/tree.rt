// Trees as JSON values.
ghost use Rattle.std.specs.Prelude.{◌≡◌, ◌++◌, codes, drop, map, string_bytes, IfOk};
ghost use Rattle.serde_json.specs.Data.{array, object};
ghost use Rattle.serde_json.specs.View.{view, items_of, items_view, members_view};
ghost use Rattle.tr_inputs.specs.Values.{field_key, element_type, int_value, only_member, text_value, members_in_order, tree_value, values_of};

use jv_base::{FieldId, Mem, Part, Tree, push_name_text};
use serde_json::{Map, Value, put};
use sqlite_items::Items;
use std::alloc::Global;

// An object of one member.
fn only_member(alloc: Global, key: &str, value: Value) -> Mem<Value>
    ensures { IfOk result (λ v. view v ≡ only_member key.now (view value)) }
{
    let mut members = Map::new(alloc);
    put(&mut members, alloc, key, value)?;
    Ok(Value::Object(members))
}

// The key of a field, `CLASS.FIELD:DESC`.
fn field_key(alloc: Global, field: &FieldId) -> Mem<String>
    ensures { IfOk result (λ key. string_bytes key ≡ field_key field.now) }
{
    let mut key = String::new(alloc);
    push_name_text(&mut key, &field.class)?;
    key.push('.')?;
    push_name_text(&mut key, &field.name)?;
    key.push(':')?;
    push_name_text(&mut key, &field.desc)?;
    Ok(key)
}

fn int_value(n: i32, desc: &[u8]) -> Value
    ensures { view result ≡ int_value n desc.now }
{
    if desc == b"Z".as_slice() {
        Value::Bool(n != 0)
    } else {
        Value::from(n)
    }
}

fn text_value(alloc: Global, units: &[u16]) -> Mem<Value>
    ensures { IfOk result (λ v. view v ≡ text_value units.now) }
{
    let mut values = Vec::with_capacity(alloc, units.len())?;
    for unit in units {
        values.push(Value::from(*unit))?;
    }
    only_member(alloc, "string", Value::Array(values))
}

// The descriptor of the elements of an array.
fn element_type(desc: &[u8]) -> &[u8]
    ensures { result.now ≡ element_type desc.now }
{
    match desc {
        [] => desc,
        [_, element @ ..] => element,
    }
}

#[cycle(tree)]
fn elements_of(alloc: Global, trees: &Items<Tree>, desc: &[u8]) -> Mem<Vec<Value>>
    ensures { IfOk result (λ v. items_view v.items ≡ items_of (values_of trees.now desc.now)) }
{
    let mut values = Vec::with_capacity(alloc, trees.len())?;
    for tree in trees.as_slice() {
        values.push(tree_value(alloc, tree, desc)?)?;
    }
    Ok(values)
}

#[cycle(tree)]
fn members_of(alloc: Global, parts: &Items<Part>) -> Mem<Map<String, Value>>
    ensures { IfOk result (λ m. members_view m.entries ≡ members_in_order (map (λ part. (field_key part.field, tree_value part.value part.field.desc)) parts.now)) }
{
    let mut members = Map::new(alloc);
    for part in parts.as_slice() {
        let key = field_key(alloc, &part.field)?;
        let value = tree_value(alloc, &part.value, part.field.desc.as_str().as_bytes())?;
        put(&mut members, alloc, key.as_str(), value)?;
    }
    Ok(members)
}

/// A tree as a JSON value, by the descriptor of its type.
#[cycle(tree)]
pub(crate) fn tree_value(alloc: Global, tree: &Tree, desc: &[u8]) -> Mem<Value>
    ensures { IfOk result (λ v. view v ≡ tree_value tree.now desc.now) }
{
    match tree {
        Tree::Int(n) => Ok(int_value(*n, desc)),
        Tree::Long(n) => Ok(Value::from(*n)),
        Tree::Null => Ok(Value::Null),
        Tree::Text(units) => text_value(alloc, units.as_slice()),
        Tree::Array(trees) => {
            let elements = elements_of(alloc, trees, element_type(desc))?;
            only_member(alloc, "array", Value::Array(elements))
        }
        Tree::Object(parts) => {
            let members = members_of(alloc, parts)?;
            only_member(alloc, "object", Value::Object(members))
        }
    }
}
