// Large inputs: memory suffices.
use crate::trees::field_of;
use jv_base::{Input, List, Name, Part, Tree, read_entry};
use sqlite_items::Items;
use std::process::Abort;
use tr_inputs::input_text;

fn printed_of<R: Abort + AllocGlobal>(rt: &R, entry: &str, arg: Tree) -> Name {
    let mut args = List::new(rt.alloc());
    args.add(arg).expect(rt, "memory");
    let entry = read_entry(rt.alloc(), entry).expect(rt, "an entry");
    input_text(rt.alloc(), &Input { args }, &entry).expect(rt, "memory")
}

#[test]
fn arrays_of_many_elements_are_printed(rt: HostRuntime) {
    let mut items = Vec::new(rt.alloc());
    let mut text = String::from_str(rt.alloc(), "{\"args\":[{\"array\":[true").expect(
        &rt, "memory",
    );
    assert!(&rt; items.push(Tree::Int(1)).is_ok(), "memory");
    for _ in 0..65_535 {
        assert!(&rt; items.push(Tree::Int(0)).is_ok(), "memory");
        text.push_str(",false").expect(&rt, "memory");
    }
    text.push_str("]}]}").expect(&rt, "memory");
    let printed = printed_of(&rt, "T.f:([Z)V", Tree::Array(Items::from_vec(items)));
    assert!(&rt; printed.as_str() == text.as_str(), "each element is there");
}

#[test]
fn objects_in_objects_are_printed(rt: HostRuntime) {
    let mut tree = Tree::Null;
    let mut text = String::from_str(rt.alloc(), "{\"args\":[").expect(&rt, "memory");
    let mut end = String::from_str(rt.alloc(), "null").expect(&rt, "memory");
    for _ in 0..255 {
        let mut items = Vec::new(rt.alloc());
        let field = field_of(&rt, "T.t:LT;");
        assert!(&rt; items.push(Part { field, value: tree }).is_ok(), "memory");
        tree = Tree::Object(Items::from_vec(items));
        text.push_str("{\"object\":{\"T.t:LT;\":")
            .expect(&rt, "memory");
        end.push_str("}}").expect(&rt, "memory");
    }
    text.push_str(end.as_str()).expect(&rt, "memory");
    text.push_str("]}").expect(&rt, "memory");
    let printed = printed_of(&rt, "T.f:(LT;)V", tree);
    assert!(&rt; printed.as_str() == text.as_str(), "each level is there");
}
