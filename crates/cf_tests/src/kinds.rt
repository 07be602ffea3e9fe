// The faults that instructions raise, by the table of docs/INSTRUCTIONS.md.
use crate::sites::KINDS;
use crate::tables::{bytes_of, rows, two_of};
use cf_code::{KindSet, kinds, read_instr};
use std::process::Abort;

// An instruction's bytes at pc 0, and the kinds that it raises.
const RAISED: &str = "
    00 |
    60 |
    6c | Zero
    6d | Zero
    6e |
    70 | Zero
    71 | Zero
    2e | Null Bounds
    32 | Null Bounds
    4f | Null Bounds
    53 | Null Bounds Store
    56 | Null Bounds
    b20001 |
    b40001 | Null
    b50001 | Null
    b60001 | Null
    b70001 | Null
    b80001 |
    b900010100 | Null
    bb0001 |
    bc0a | NegSize
    bd0001 | NegSize
    be | Null
    bf | Null Assert
    c00001 | Cast
    c10001 |
";

/// The kinds of a set, each before a blank, as it is asked and as it is listed.
fn printed<R: Abort + AllocGlobal>(rt: &R, set: KindSet) -> String {
    let alloc = rt.alloc();
    let mut text = String::new(alloc);
    for kind in KINDS {
        if set.contains(kind) {
            text.push_str(format!(in alloc; "{kind:?} ").expect(rt, "memory").as_str())
                .expect(rt, "memory");
        }
    }
    let mut listed = String::new(alloc);
    for kind in set.to_list(alloc).expect(rt, "memory").as_slice() {
        listed
            .push_str(format!(in alloc; "{kind:?} ").expect(rt, "memory").as_str())
            .expect(rt, "memory");
    }
    assert!(rt; listed.as_str() == text.as_str());
    text
}

#[test]
fn each_instruction_raises_its_kinds(rt: HostRuntime) {
    let alloc = rt.alloc();
    for row in &rows(&rt, RAISED) {
        let (bytes, raised) = two_of(&rt, row);
        let instr = read_instr(alloc, 0, &bytes_of(&rt, bytes))
            .expect(&rt, "memory")
            .expect(&rt, "an instruction");
        let found = printed(&rt, kinds(&instr));
        assert!(rt; found.as_str().trim() == raised, "{row}");
    }
}
