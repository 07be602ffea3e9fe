// The types of descriptors (JVM Specification SE 8, 4.3.2 and 4.3.3), and the places where other texts leave the grammar.
use crate::entries::repeated;
use crate::sites::is_bad;
use crate::tables::{number_of, rows, two_of};
use jv_base::{
    Desc, Name, TextFault, Ty, one_descriptor, one_field_type, one_form, read_descriptor,
    read_field_type,
};
use std::alloc::Global;

fn descriptor(alloc: Global, text: &str) -> Result<Desc, TextFault> {
    match Name::from_text(alloc, text) {
        Ok(text) => read_descriptor(alloc, &text),
        Err(_) => Err(TextFault::NoMemory),
    }
}

fn field_type(alloc: Global, text: &str) -> Result<Ty, TextFault> {
    match Name::from_text(alloc, text) {
        Ok(text) => read_field_type(alloc, &text),
        Err(_) => Err(TextFault::NoMemory),
    }
}

// How many characters of a text begin a method descriptor, and the text.
const REFUSED: &str = "
    0 |
    0 | I
    2 | (I
    1 | (Q)V
    3 | ()VV
    4 | (La//b;)V
    3 | (Lé
    2 | (L;)V
    2 | ([)V
    2 | ([V
";

// The same for field descriptors.
const REFUSED_OF_FIELDS: &str = "
    0 |
    0 | V
    1 | II
    1 | L
    1 | [
";

#[test]
fn other_texts_are_no_descriptors(rt: HostRuntime) {
    let alloc = rt.alloc();
    for row in &rows(&rt, REFUSED) {
        let (place, text) = two_of(&rt, row);
        let place = u64::from(number_of(&rt, place));
        assert!(rt; is_bad(&descriptor(alloc, text), place), "{row}");
    }
    for row in &rows(&rt, REFUSED_OF_FIELDS) {
        let (place, text) = two_of(&rt, row);
        let place = u64::from(number_of(&rt, place));
        assert!(rt; is_bad(&field_type(alloc, text), place), "{row}");
    }
}

/// How many dimensions a type has, and the type of the elements.
fn element_of(ty: &Ty) -> (u32, &Ty) {
    let mut dimensions = 0_u32;
    let mut element = ty;
    while let Ty::Array(elements) = element {
        dimensions = dimensions.saturating_add(1);
        element = elements.get();
    }
    (dimensions, element)
}

fn is_class(ty: &Ty, dimensions: u32, class: &str) -> bool {
    match element_of(ty) {
        (count, Ty::Class(name)) => count == dimensions && name.as_str() == class,
        _ => false,
    }
}

#[test]
fn descriptors_are_read(rt: HostRuntime) {
    let alloc = rt.alloc();
    let printed = format!(in alloc;
        "{:?}",
        descriptor(alloc, "()V").expect(&rt, "no fault")
    ).expect(&rt, "memory");
    assert!(rt; printed.as_str() == "Desc { params: List { items: [] }, result: None }");
    let desc = descriptor(alloc, "(BCDFIJSZ)[[Ljava/lang/String;").expect(&rt, "no fault");
    let printed = format!(in alloc; "{:?}", desc.params).expect(&rt, "memory");
    assert!(rt;
        printed.as_str() == "List { items: [Byte, Char, Double, Float, Int, Long, Short, Boolean] }"
    );
    assert!(rt;
        desc.result
            .is_some_and(|ty| is_class(&ty, 2, "java/lang/String"))
    );
    one_descriptor();
    one_field_type();
    one_form();
}

#[test]
fn field_types_are_read(rt: HostRuntime) {
    let alloc = rt.alloc();
    assert!(rt; matches!(field_type(alloc, "I").expect(&rt, "no fault"), Ty::Int));
    assert!(rt;
        is_class(
            &field_type(alloc, "[[Lé/b;").expect(&rt, "no fault"),
            2,
            "é/b"
        )
    );
    let most = field_type(alloc, repeated(&rt, "", "[", 255, "I").as_str()).expect(&rt, "no fault");
    assert!(rt; matches!(element_of(&most), (255, Ty::Int)));
    let more = repeated(&rt, "", "[", 256, "I");
    assert!(rt; is_bad(&field_type(alloc, more.as_str()), 255));
}

#[test]
fn a_descriptor_of_65535_parameters_is_read(rt: HostRuntime) {
    let alloc = rt.alloc();
    let text = repeated(&rt, "(", "[I", 65535, ")V");
    assert!(rt;
        descriptor(alloc, text.as_str())
            .expect(&rt, "no fault")
            .params
            .length()
            == 65535
    );
}
