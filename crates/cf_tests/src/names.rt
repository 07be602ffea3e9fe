// Names, and the order of names and of assertions.
use crate::sites::goal;
use crate::tables::{rows, two_of};
use jv_base::{
    Kind, MethodId, Name, TryCopy, compare_goals, forms_decided, is_any_method_name, is_class_name,
    is_field_descriptor, is_method_descriptor,
};
use std::cmp::Ordering;
use std::process::Abort;

pub(crate) fn method<R: Abort + AllocGlobal>(
    rt: &R,
    class: &str,
    name: &str,
    desc: &str,
) -> MethodId {
    let alloc = rt.alloc();
    MethodId {
        class: Name::from_text(alloc, class).expect(rt, "memory"),
        name: Name::from_text(alloc, name).expect(rt, "memory"),
        desc: Name::from_text(alloc, desc).expect(rt, "memory"),
    }
}

#[test]
fn a_name_grows_and_is_copied(rt: HostRuntime) {
    let alloc = rt.alloc();
    let mut name = Name::new(alloc);
    name.push_text("ab").expect(&rt, "memory");
    assert!(rt; name.push('é').is_ok());
    assert!(rt; name.as_str() == "abé");
    assert!(rt; name.length() == 4);
    assert!(rt; name.at(3) == 0xa9);
    assert!(rt; name.copy(alloc).expect(&rt, "memory").equals(&name));
    let other = Name::from_string(String::from_str(alloc, "abe").expect(&rt, "memory"));
    assert!(rt;
        TryCopy::copy(&other, alloc)
            .expect(&rt, "memory")
            .equals(&other)
    );
    assert!(rt; !other.equals(&name));
}

#[test]
fn a_name_takes_65536_characters(rt: HostRuntime) {
    let mut name = Name::new(rt.alloc());
    for _ in 0..65536_u32 {
        assert!(rt; name.push('é').is_ok());
    }
    assert!(rt; name.length() == 131072);
}

#[test]
fn a_method_is_copied(rt: HostRuntime) {
    let alloc = rt.alloc();
    let method = method(&rt, "T", "f", "()V");
    let first = method.copy(alloc).expect(&rt, "memory");
    let copy = TryCopy::copy(&first, alloc).expect(&rt, "memory");
    assert!(rt; copy.class.as_str() == "T");
    assert!(rt; copy.name.as_str() == "f");
    assert!(rt; copy.desc.as_str() == "()V");
}

// Texts in the order of their UTF-8 bytes: the first UTF-16 unit of the last is below that of the one before.
const ORDERED: [&str; 6] = ["", "A", "AB", "a", "\u{ffff}", "\u{10000}"];

#[test]
fn names_are_in_the_order_of_their_bytes(rt: HostRuntime) {
    let alloc = rt.alloc();
    for pair in ORDERED.windows(2) {
        let [low, high] = pair else { continue };
        let low = Name::from_text(alloc, low).expect(&rt, "memory");
        let high = Name::from_text(alloc, high).expect(&rt, "memory");
        assert!(rt; low.compare(&high) == Ordering::Less);
        assert!(rt; high.compare(&low) == Ordering::Greater);
        assert!(rt; low.compare(&low) == Ordering::Equal);
    }
}

// The class, the method's name, the pc and the kind of assertions that rise.
const RISING: [(&str, &str, u16, Kind); 4] = [
    ("A", "f", 9, Kind::Assert),
    ("AB", "a", 0, Kind::Null),
    ("AB", "a", 3, Kind::Zero),
    ("AB", "a", 3, Kind::Bounds),
];

#[test]
fn assertions_are_in_the_order_of_the_report(rt: HostRuntime) {
    let alloc = rt.alloc();
    for pair in RISING.windows(2) {
        let [low, high] = pair else { continue };
        let low = goal(&rt, low.0, low.1, low.2, low.3);
        let high = goal(&rt, high.0, high.1, high.2, high.3);
        assert!(rt; compare_goals(&low, &high) == Ordering::Less);
        assert!(rt; compare_goals(&high, &low) == Ordering::Greater);
        assert!(rt; compare_goals(&low, &low) == Ordering::Equal);
    }
}

// A text, and what it can be: the name of a class or of a method, the descriptor of a field or of a method.
const FORMS: &str = r"
    | nothing
    a/é/C | class
    a//b | nothing
    /a | nothing
    a.b | nothing
    f | class method
    a<b | class
    <init> | class method
    <clinit> | class method
    <cinit> | class
    I | class method field
    V | class method
    [I | field
    [[La/b; | field
    L; | nothing
    [V | nothing
    ()V | class method descriptor
    (I | class method
    ([I)[J | descriptor
    ([ILa/b;)V | descriptor
    ()[V | nothing
";

#[test]
fn a_text_has_its_forms(rt: HostRuntime) {
    forms_decided();
    for row in &rows(&rt, FORMS) {
        let (text, forms) = two_of(&rt, row);
        let has = |form: &str| forms.split(' ').any(|word| word == form);
        assert!(rt; is_class_name(text) == has("class"), "{row}");
        assert!(rt; is_any_method_name(text) == has("method"), "{row}");
        assert!(rt; is_field_descriptor(text) == has("field"), "{row}");
        assert!(rt; is_method_descriptor(text) == has("descriptor"), "{row}");
    }
}
