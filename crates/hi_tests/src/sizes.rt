// Large hierarchies. Each class is looked at once a question: without marks, the lattice would take more steps than any
// test can make.
use crate::worlds::{class_of, method_of, name_of, put};
use hi_tree::Classes;
use jv_base::FieldId;
use std::process::Abort;

/// The name of a class by its letter and its number.
fn numbered<R: Abort + AllocGlobal>(rt: &R, letter: &str, number: u32) -> String {
    format!(in rt.alloc(); "{letter}{number}").expect(rt, "memory")
}

/// Each class extends the one before it; the first declares a method.
fn chain<R: Abort + AllocGlobal>(rt: &R, count: u32) -> Classes {
    let mut classes = Classes::new(rt.alloc());
    put(
        rt,
        &mut classes,
        class_of(rt, "C0", "class", "java/lang/Object", "", "public.m"),
    );
    for number in 1..count {
        let name = numbered(rt, "C", number);
        let above = numbered(rt, "C", number - 1);
        put(
            rt,
            &mut classes,
            class_of(rt, name.as_str(), "class", above.as_str(), "", ""),
        );
    }
    classes
}

/// Each interface stands over two others, those of the row before it; all declare a method, and a class is below.
fn lattice<R: Abort + AllocGlobal>(rt: &R, rows: u32) -> Classes {
    let mut classes = Classes::new(rt.alloc());
    for row in 0..rows {
        let left = numbered(rt, "L", row);
        let right = numbered(rt, "R", row);
        let above = if row == 0 {
            String::new(rt.alloc())
        } else {
            format!(in rt.alloc(); "L{} R{}", row - 1, row - 1).expect(rt, "memory")
        };
        for name in [left.as_str(), right.as_str()] {
            let class = class_of(
                rt,
                name,
                "interface",
                "java/lang/Object",
                above.as_str(),
                "public.m",
            );
            put(rt, &mut classes, class);
        }
    }
    let last = rows.saturating_sub(1);
    let above = format!(in rt.alloc(); "L{last}").expect(rt, "memory");
    put(
        rt,
        &mut classes,
        class_of(rt, "A", "class", "java/lang/Object", above.as_str(), ""),
    );
    classes
}

fn resolves<R: Abort + AllocGlobal>(rt: &R, classes: &Classes, class: &str, text: &str) -> bool {
    let at = method_of(rt, class, text);
    classes.resolve(rt.alloc(), &at, false).is_ok()
}

#[test]
fn a_chain_of_classes_is_walked_once(rt: HostRuntime) {
    let classes = chain(&rt, 300);
    assert!(rt; resolves(&rt, &classes, "C299", "m"), "the first");
    assert!(rt; !resolves(&rt, &classes, "C299", "n"), "none");
    let at = method_of(&rt, "C0", "m");
    assert!(rt;
        classes
            .select(rt.alloc(), &name_of(&rt, "C299"), &at)
            .is_ok(),
        "the first"
    );
}

#[test]
fn a_lattice_of_interfaces_is_walked_once(rt: HostRuntime) {
    let classes = lattice(&rt, 60);
    assert!(rt; resolves(&rt, &classes, "A", "m"), "the lowest");
    assert!(rt; !resolves(&rt, &classes, "A", "n"), "none");
    let at = method_of(&rt, "L0", "m");
    assert!(rt;
        classes.select(rt.alloc(), &name_of(&rt, "A"), &at).is_ok(),
        "the lowest"
    );
    let field = FieldId {
        class: name_of(&rt, "A"),
        name: name_of(&rt, "f"),
        desc: name_of(&rt, "I"),
    };
    assert!(rt; classes.field(rt.alloc(), &field).is_err(), "none");
}
