// Which code has shapes.
use crate::code::{cell, flow, is_row};
use ck_shapes::{ValueType, find_shapes};
use std::test::Fail;

// max_stack and max_locals; the parameters; the handlers (from, below, handler); the instructions; whether there are shapes.
const CODES: &str = "
    0 0 | | | return | yes
    // a local is read that holds nothing, another type, or what a parameter gave
    1 1 | | | iload 0 > 1, ireturn | no
    1 1 | A | | iload 0 > 1, ireturn | no
    1 1 | I | | iload 0 > 1, ireturn | yes
    0 1 | I | | iinc 0 > 1, return | yes
    0 1 | A | | iinc 0 > 1, return | no
    // the parameters and each local have room, a long with both its words
    0 0 | I | | return | no
    0 1 | J | | return | no
    0 2 | J | | return | yes
    2 1 | | | lconst > 1, lstore 0 > 2, return | no
    2 2 | | | lconst > 1, lstore 0 > 2, return | yes
    1 1 | | | iconst > 1, istore 1 > 2, return | no
    // a long's half overwritten: the second place, then the first; and by another long
    2 3 | J | | iconst > 1, istore 1 > 2, lload 0 > 3, lreturn | no
    2 3 | J | | iconst > 1, istore 0 > 2, lload 0 > 3, lreturn | no
    2 3 | J | | iconst > 1, istore 2 > 2, lload 0 > 3, lreturn | yes
    2 3 | J | | lconst > 1, lstore 1 > 2, lload 0 > 3, lreturn | no
    2 3 | J | | lconst > 1, lstore 1 > 2, lload 1 > 3, lreturn | yes
    2 3 | JI | | lconst > 1, lstore 1 > 2, iload 2 > 3, ireturn | no
    // max_stack counts words
    1 0 | | | lconst > 1, lreturn | no
    2 0 | | | lconst > 1, lreturn | yes
    3 0 | | | lconst > 1, lconst > 2, ladd > 3, lreturn | no
    4 0 | | | lconst > 1, lconst > 2, ladd > 3, lreturn | yes
    // moves never part a long
    2 0 | | | lconst > 1, pop > 2, return | no
    2 0 | | | lconst > 1, pop2 > 2, return | yes
    2 0 | | | iconst > 1, null > 2, pop2 > 3, return | yes
    4 0 | | | lconst > 1, dup2 > 2, ladd > 3, lreturn | yes
    3 0 | | | lconst > 1, dup > 2, return | no
    4 0 | | | lconst > 1, iconst > 2, dup_x2 > 3, pop > 4, lreturn | yes
    4 0 | | | iconst > 1, lconst > 2, iconst > 3, dup_x2 > 4, return | no
    5 0 | | | iconst > 1, lconst > 2, iconst > 3, dup_x2 > 4, return | yes
    3 0 | | | lconst > 1, iconst > 2, swap > 3, return | no
    2 0 | | | null > 1, iconst > 2, swap > 3, areturn | yes
    // the stack is empty
    1 0 | | | pop > 1, return | no
    1 0 | | | ireturn | no
    // a join of an int and a reference, used or not
    1 2 | I | | iload 0 > 1, ifeq > 2 5, iconst > 3, istore 1 > 4, goto > 7, null > 6, astore 1 > 7, return | yes
    1 2 | I | | iload 0 > 1, ifeq > 2 5, iconst > 3, istore 1 > 4, goto > 7, null > 6, astore 1 > 7, iload 1 > 8, ireturn | no
    1 2 | I | | iload 0 > 1, ifeq > 2 5, iconst > 3, istore 1 > 4, goto > 7, iconst > 6, istore 1 > 7, iload 1 > 8, ireturn | yes
    // stacks that differ where they meet
    2 1 | I | | iload 0 > 1, ifeq > 2 4, iconst > 3, goto > 5, null > 5, pop > 6, return | no
    2 1 | I | | iload 0 > 1, ifeq > 2 4, iconst > 3, goto > 5, iconst > 5, pop > 6, return | yes
    2 1 | I | | iload 0 > 1, ifeq > 2 3, iconst > 3, return | no
    // loops: what the second round has counts too, at pc 0 as well
    1 1 | I | | iload 0 > 1, ifeq > 2 5, null > 3, astore 0 > 4, goto > 0, return | no
    1 1 | I | | iinc 0 > 1, iload 0 > 2, ifeq > 0 3, return | yes
    1 1 | I | | null > 1, astore 0 > 2, goto > 0 | yes
    // the stack grows with each round
    9 0 | | | iconst > 1, goto > 0 | no
    // a handler has the locals before each instruction of its range, and a reference alone on the stack
    1 1 | | 0 2 3 | iconst > 1, istore 0 > 2, return, pop > 4, iload 0 > 5, ireturn | no
    1 1 | | 2 3 3 | iconst > 1, istore 0 > 2, return, pop > 4, iload 0 > 5, ireturn | yes
    1 1 | | 1 2 3 | iconst > 1, istore 0 > 2, return, pop > 4, iload 0 > 5, ireturn | no
    2 1 | I | 0 2 3 | iload 0 > 1, pop > 2, return, areturn | yes
    2 1 | I | 0 2 3 | iload 0 > 1, pop > 2, return, ireturn | no
    0 0 | | 0 1 1 | return, athrow | no
    1 0 | | 0 1 1 | return, athrow | yes
    1 0 | | 0 1 0 | nop > 1, return | no
    // dead code needs none, also in a range; no instruction stands at the code's end
    0 0 | | | return, ireturn | yes
    1 0 | | 1 2 0 | return, ireturn | yes
    0 0 | | | nop > 1 | no
    0 0 | | | goto > 7 | no
";

#[test]
fn codes_have_shapes_or_not(rt: HostRuntime) -> Result<(), Fail> {
    for row in CODES.lines() {
        if is_row(row) {
            let flow = flow(rt.alloc(), row)?;
            let answer = match find_shapes(rt.alloc(), &flow)? {
                Some(_) => "yes",
                None => "no",
            };
            assert!(rt; cell(row, 4) == answer, "{row}: {answer}");
        }
    }
    Ok(())
}

#[test]
fn what_is_known_at_a_join_is_common(rt: HostRuntime) -> Result<(), Fail> {
    let row = "1 2 | IA | | iload 0 > 1, ifeq > 2 4, null > 3, astore 0 > 4, return, return";
    let flow = flow(rt.alloc(), row)?;
    let Some(shapes) = find_shapes(rt.alloc(), &flow)? else {
        assert!(rt; row.is_empty(), "{row}");
        return Ok(());
    };
    if let Some(shape) = shapes.at(4) {
        assert!(rt; shape.stack.to_list(rt.alloc())?.is_empty());
        assert_eq!(rt; shape.locals.at(0), None);
        assert_eq!(rt; shape.locals.at(1), Some(ValueType::Reference));
    }
    assert!(rt; shapes.at(4).is_some());
    assert!(rt; shapes.at(5).is_none());
    assert!(rt; shapes.at(6).is_none());
    Ok(())
}
