// Trees by words in postfix order: a number is an int, and with an `L` a long; `text:` has units; `array:` and `object:` take
// so many of the trees and fields before them, and `field:` takes the tree before it.
use jv_base::{FieldId, Input, List, Name, Part, Tree};
use sqlite_items::Items;
use std::process::Abort;

fn name_of<R: Abort + AllocGlobal>(rt: &R, text: &str) -> Name {
    Name::from_text(rt.alloc(), text).expect(rt, "memory")
}

/// A field by its class, its name and its descriptor, as `CLASS.NAME:DESC`. A name may have a colon.
pub(crate) fn field_of<R: Abort + AllocGlobal>(rt: &R, text: &str) -> FieldId {
    let (class, rest) = text.split_once('.').expect(rt, "a class and a field");
    let (name, desc) = rest.rsplit_once(':').expect(rt, "a name and a descriptor");
    FieldId {
        class: name_of(rt, class),
        name: name_of(rt, name),
        desc: name_of(rt, desc),
    }
}

fn text_of<R: Abort + AllocGlobal>(rt: &R, units: &str) -> Tree {
    let mut list = List::new(rt.alloc());
    for unit in units.split(',') {
        if !unit.is_empty() {
            let unit: u16 = unit.parse().expect(rt, "a unit");
            list.add(unit).expect(rt, "memory");
        }
    }
    Tree::Text(list)
}

/// The last elements of a list, so many as a number says.
fn taken<T: Drop, R: Abort + AllocGlobal>(rt: &R, list: &mut List<T>, count: &str) -> Items<T> {
    let count: u16 = count.parse().expect(rt, "a count");
    let mut items = Vec::new(rt.alloc());
    for _ in 0..count {
        let item = list.pop().expect(rt, "enough stands before");
        assert!(rt; items.push(item).is_ok(), "memory");
    }
    items.reverse();
    Items::from_vec(items)
}

/// A tree that needs no other.
fn leaf_of<R: Abort + AllocGlobal>(rt: &R, word: &str) -> Tree {
    if word == "null" {
        return Tree::Null;
    }
    if let Some(units) = word.strip_prefix("text:") {
        return text_of(rt, units);
    }
    match word.strip_suffix('L') {
        Some(number) => Tree::Long(number.parse().expect(rt, "a long")),
        None => Tree::Int(word.parse().expect(rt, "an int")),
    }
}

/// The input that words tell.
pub(crate) fn input_of<R: Abort + AllocGlobal>(rt: &R, words: &str) -> Input {
    let mut trees = List::new(rt.alloc());
    let mut parts = List::new(rt.alloc());
    for word in words.split_whitespace() {
        if let Some(field) = word.strip_prefix("field:") {
            let value = trees.pop().expect(rt, "a value");
            let field = field_of(rt, field);
            parts.add(Part { field, value }).expect(rt, "memory");
            continue;
        }
        let tree = if let Some(count) = word.strip_prefix("array:") {
            Tree::Array(taken(rt, &mut trees, count))
        } else if let Some(count) = word.strip_prefix("object:") {
            Tree::Object(taken(rt, &mut parts, count))
        } else {
            leaf_of(rt, word)
        };
        trees.add(tree).expect(rt, "memory");
    }
    Input { args: trees }
}
