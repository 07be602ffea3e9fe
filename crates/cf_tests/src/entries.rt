// The text forms of entries: as they are written, and other texts, with the place where each leaves the grammar.
use crate::names::method;
use crate::sites::is_bad;
use crate::tables::{four_of, number_of, rows, two_of};
use jv_base::{Name, TextFault, entry_text, one_entry, push_name_text, read_entry};
use std::process::Abort;

// A text beside the class, the name and the descriptor of its method.
const ENTRIES: &str = r"
    T.f:(II)V | T | f | (II)V
    a/b/C.m:([[I[Ljava/lang/String;J)Ljava/lang/Object; | a/b/C | m | ([[I[Ljava/lang/String;J)Ljava/lang/Object;
    T.f:(BCDFIJSZ)[Z | T | f | (BCDFIJSZ)[Z
    Caf\u00e9.f:()V | Café | f | ()V
    T.a\u0020b:()V | T | a b | ()V
    T.a\u003ab\u0040\u005c:()V | T | a:b@\ | ()V
    \ud83d\ude00.f:()V | 😀 | f | ()V
    T.f:(L\u00e9/\ud83d\ude00;)V | T | f | (Lé/😀;)V
";

#[test]
fn entries_are_written_and_read(rt: HostRuntime) {
    let alloc = rt.alloc();
    for row in &rows(&rt, ENTRIES) {
        let (text, class, name, desc) = four_of(&rt, row);
        let written = entry_text(alloc, &method(&rt, class, name, desc)).expect(&rt, "memory");
        assert!(rt; written.as_str() == text, "{row}");
        let read = read_entry(alloc, text).expect(&rt, "no fault");
        assert!(rt; read.class.as_str() == class, "{row}");
        assert!(rt; read.name.as_str() == name, "{row}");
        assert!(rt; read.desc.as_str() == desc, "{row}");
    }
    one_entry();
}

// How many characters of a text begin one of an entry, and the text: outside the grammar of entries, of descriptors, of
// names and of escapes.
const REFUSED: &str = r"
    0 |
    3 | T.f
    1 | T:()V
    0 | .f:()V
    2 | T.:()V
    4 | T.f:
    2 | T.<init>:()V
    2 | a//b.f:()V
    0 | /a.f:()V
    2 | a/.f:()V
    3 | T.f/g:()V
    6 | T.f:(I
    5 | T.f:(Q)V
    6 | T.f:()
    5 | T.f:(V)V
    7 | T.f:()[V
    7 | T.f:()VV
    7 | T.f:()V V
    7 | T.f:()V@0:null
    6 | T.f:(L;)V
    9 | T.f:(La)V
    6 | T.f:([)V
    0 | é.f:()V
    1 | \
    1 | \x
    2 | \u
    5 | \u0041.f:()V
    4 | \u0061
    4 | \u00E9.f:()V
    5 | \u0000.f:()V
    6 | \u0020
    6 | \u00e9;
    6 | \uffff
    3 | \udc00
    6 | \ud83d.f:()V
    9 | \ud83d\ud83d
    13 | \ud83d\ude00x
    3 | \ude00\ud83d.f:()V
";

#[test]
fn other_texts_are_no_entries(rt: HostRuntime) {
    let alloc = rt.alloc();
    for row in &rows(&rt, REFUSED) {
        let (place, text) = two_of(&rt, row);
        let place = u64::from(number_of(&rt, place));
        assert!(rt; is_bad(&read_entry(alloc, text), place), "{row}");
    }
}

/// So many times this text, between two others.
pub(crate) fn repeated<R: Abort + AllocGlobal>(
    rt: &R,
    front: &str,
    text: &str,
    count: usize,
    back: &str,
) -> String {
    let alloc = rt.alloc();
    let mut whole = String::from_str(alloc, front).expect(rt, "memory");
    for _ in 0..count {
        whole.push_str(text).expect(rt, "memory");
    }
    whole.push_str(back).expect(rt, "memory");
    whole
}

#[test]
fn arrays_have_255_dimensions_at_most(rt: HostRuntime) {
    let alloc = rt.alloc();
    let most = repeated(&rt, "T.f:(", "[", 255, "I)V");
    assert!(rt;
        read_entry(alloc, most.as_str())
            .expect(&rt, "no fault")
            .class
            .as_str()
            == "T"
    );
    let more = repeated(&rt, "T.f:(", "[", 256, "I)V");
    assert!(rt; is_bad(&read_entry(alloc, more.as_str()), 260));
}

#[test]
fn a_text_of_65535_escapes_is_an_entry(rt: HostRuntime) {
    let alloc = rt.alloc();
    let class = repeated(&rt, "", "é", 65535, "");
    let text = repeated(&rt, "", r"\u00e9", 65535, ".f:()V");
    let written = entry_text(alloc, &method(&rt, class.as_str(), "f", "()V")).expect(&rt, "memory");
    assert!(rt; written.as_str() == text.as_str());
    let read = read_entry(alloc, text.as_str()).expect(&rt, "no fault");
    assert!(rt; read.class.as_str() == class.as_str());
}

#[test]
fn a_name_is_written_at_the_end(rt: HostRuntime) {
    let alloc = rt.alloc();
    let mut out = String::from_str(alloc, "to ").expect(&rt, "memory");
    push_name_text(
        &mut out,
        &Name::from_text(alloc, "a/é").expect(&rt, "memory"),
    )
    .expect(&rt, "memory");
    assert!(rt; out.as_str() == r"to a/\u00e9");
}

#[test]
fn faults_of_texts_are_printed_with_their_place(rt: HostRuntime) {
    let fault = TextFault::Bad(3);
    let text = format!(in rt.alloc(); "{fault}").expect(&rt, "memory");
    assert!(rt; text.as_str() == "out of form at 3");
}
