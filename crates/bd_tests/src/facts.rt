// The facts of methods: of classes that javac wrote and that were put together by hand.
use crate::cases::{ASSEMBLED, ASSEMBLED_FACTS, COMPILED, COMPILED_FACTS};
use crate::tables::{bytes_of, rows};
use bd_scan::{Fact, FieldUse, Why, class_names, float_descriptors, scan};
use cf_class::{ClassFile, read_class};
use jv_base::{List, MethodId, Name};
use std::process::Abort;

fn name_of<R: Abort + AllocGlobal>(rt: &R, text: &str) -> Name {
    Name::from_text(rt.alloc(), text).expect(rt, "memory")
}

/// The method of a class that a text names, as `name:descriptor`.
fn method_of<R: Abort + AllocGlobal>(rt: &R, class: &ClassFile, text: &str) -> MethodId {
    let (name, desc) = text.split_once(':').expect(rt, "a name and a descriptor");
    MethodId {
        class: name_of(rt, class.this_class.name.as_str()),
        name: name_of(rt, name),
        desc: name_of(rt, desc),
    }
}

fn facts_of<R: Abort + AllocGlobal>(rt: &R, class: &ClassFile, method: &str) -> List<Fact> {
    scan(rt.alloc(), class, &method_of(rt, class, method)).expect(rt, "memory")
}

fn use_text(access: FieldUse) -> &'static str {
    match access {
        FieldUse::GetStatic => "GetStatic",
        FieldUse::PutStatic => "PutStatic",
        FieldUse::Get => "Get",
        FieldUse::Put => "Put",
    }
}

fn call_text<R: Abort + AllocGlobal>(
    rt: &R,
    word: &str,
    pc: u16,
    method: &MethodId,
    interface: bool,
) -> String {
    let class = method.class.as_str();
    let name = method.name.as_str();
    let desc = method.desc.as_str();
    format!(in rt.alloc(); "{word} {pc} {class}.{name}:{desc} {interface}").expect(rt, "memory")
}

fn refusal_text<R: Abort + AllocGlobal>(rt: &R, pc: u16, why: &Why) -> String {
    format!(in rt.alloc(); "refuse {pc} {:?}", why).expect(rt, "memory")
}

/// A fact, as the tables write it.
fn fact_text<R: Abort + AllocGlobal>(rt: &R, fact: &Fact) -> String {
    let alloc = rt.alloc();
    let text = match fact {
        Fact::Special(pc, method, is) => return call_text(rt, "special", *pc, method, *is),
        Fact::Static(pc, method, is) => return call_text(rt, "static", *pc, method, *is),
        Fact::Virtual(pc, method, is) => return call_text(rt, "virtual", *pc, method, *is),
        Fact::Refuse(pc, why) => return refusal_text(rt, *pc, why),
        Fact::New(pc, class) => format!(in alloc; "new {pc} {}", class.as_str()),
        Fact::Names(class) => format!(in alloc; "names {}", class.as_str()),
        Fact::Init(class) => format!(in alloc; "init {}", class.as_str()),
        Fact::Raises(class) => format!(in alloc; "raises {}", class.as_str()),
        Fact::Literal(class) => format!(in alloc; "literal {}", class.as_str()),
        Fact::Reads(pc, field, access) => format!(in alloc;
            "reads {pc} {}.{}:{} {}",
            field.class.as_str(),
            field.name.as_str(),
            field.desc.as_str(),
            use_text(*access)
        ),
    };
    text.expect(rt, "memory")
}

/// Whether the methods of a class have the facts of a table, and no more.
fn has_facts<R: Abort + AllocGlobal>(rt: &R, digits: &str, table: &str) {
    let class = read_class(rt.alloc(), &bytes_of(rt, digits)).expect(rt, "a class");
    let mut facts = List::new(rt.alloc());
    let mut next = 0;
    for row in &rows(rt, table) {
        if let Some(method) = row.strip_prefix("method ") {
            assert!(rt; next == facts.length(), "{row}");
            facts = facts_of(rt, &class, method);
            next = 0;
        } else {
            let found = fact_text(rt, facts.get(next).expect(rt, "a fact"));
            assert!(rt; found.as_str() == *row, "{row}: {found}");
            next += 1;
        }
    }
    assert!(rt; next == facts.length());
}

#[test]
fn methods_that_javac_wrote_have_the_facts_that_javap_shows(rt: HostRuntime) {
    has_facts(&rt, COMPILED, COMPILED_FACTS);
}

#[test]
fn each_opcode_and_each_kind_of_constant_has_its_facts(rt: HostRuntime) {
    has_facts(&rt, ASSEMBLED, ASSEMBLED_FACTS);
}

// A class up to the length of its string literal, and what follows the literal: a method that pushes it.
const LITERAL_FRONT: &str =
    "cafebabe00000034000a070002010001540700040100106a6176612f6c616e672f4f626a656374
    010004436f64650100016d01000328295608000901";

const LITERAL_BACK: &str =
    "00210001000300000000000100090006000700010005000000100001000000000004120857b1
    000000000000";

/// A class that pushes a literal of so many units.
fn literal_class<R: Abort + AllocGlobal>(rt: &R, units: u16) -> ClassFile {
    let mut bytes = bytes_of(rt, LITERAL_FRONT);
    bytes
        .extend_from_slice(&units.to_be_bytes())
        .expect(rt, "memory");
    for _ in 0..units {
        bytes.push(b'a').expect(rt, "memory");
    }
    bytes
        .extend_from_slice(&bytes_of(rt, LITERAL_BACK))
        .expect(rt, "memory");
    read_class(rt.alloc(), &bytes).expect(rt, "a class")
}

#[test]
fn a_literal_of_1000_units_is_supported_and_a_longer_one_is_not(rt: HostRuntime) {
    for (units, count) in [(0, 1), (1000, 1), (1001, 2), (65535, 2)] {
        let class = literal_class(&rt, units);
        let facts = facts_of(&rt, &class, "m:()V");
        assert!(rt; facts.length() == count);
        assert!(rt;
            fact_text(&rt, facts.get(0).expect(&rt, "a fact")).as_str()
                == "literal java/lang/String"
        );
        if count == 2 {
            assert!(rt;
                fact_text(&rt, facts.get(1).expect(&rt, "a fact")).as_str() == "refuse 0 Literal"
            );
        }
    }
}

#[test]
fn a_method_that_a_class_does_not_declare_has_the_facts_of_its_descriptor(rt: HostRuntime) {
    let class = literal_class(&rt, 3);
    assert!(rt; facts_of(&rt, &class, "n:()V").is_empty());
    assert!(rt; facts_of(&rt, &class, "m:()I").is_empty());
    assert!(rt; facts_of(&rt, &class, "m:(LDF;[[D)V").length() == 1);
    class_names();
    float_descriptors();
}
