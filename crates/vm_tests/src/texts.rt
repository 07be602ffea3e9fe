// Each call of a text at edges, against what the JVM answers.
use crate::tables::{cell, number_of, place_of, printed, rows, text_of, unit_of};
use crate::text_rows::{DECIMALS, PAIRS, PARTS, PLACES, READ};
use jv_list::TryCopy;
use st_text::{Text, compare_laws, place_laws};
use std::process::Abort;

#[test]
fn texts_have_their_units(rt: HostRuntime) {
    let alloc = rt.alloc();
    for row in &rows(&rt, READ) {
        let (units, rest) = cell(&rt, row);
        let (length, read) = cell(&rt, rest);
        let text = text_of(&rt, units);
        assert_eq!(rt; text.length(), place_of(&rt, length), "{row}");
        let mut units = Vec::new(alloc);
        for place in 0..text.length() {
            units.push(text.unit(place)).expect(&rt, "memory");
        }
        assert!(rt; units.as_slice() == text_of(&rt, read).units(), "{row}");
        let copy = TryCopy::copy(&text, alloc).expect(&rt, "memory");
        assert!(rt; copy.same(&text), "{row}");
    }
    assert_eq!(rt; Text::new(alloc).length(), 0);
}

#[test]
fn parts_are_substrings(rt: HostRuntime) {
    for row in &rows(&rt, PARTS) {
        let (units, rest) = cell(&rt, row);
        let (from, rest) = cell(&rt, rest);
        let (to, wanted) = cell(&rt, rest);
        let (from, to) = (place_of(&rt, from), place_of(&rt, to));
        let text = text_of(&rt, units);
        assert!(rt; from <= to && to <= text.length(), "{row}");
        let part = text.part(rt.alloc(), from, to).expect(&rt, "memory");
        assert!(rt; printed(&rt, &part).as_str() == wanted, "{row}");
    }
}

fn is_answer(answer: bool, wanted: &str) -> bool {
    wanted == if answer { "true" } else { "false" }
}

// The two texts of a row, and what stands behind them.
fn pair_of<'a, R: Abort + AllocGlobal>(rt: &R, row: &'a str) -> (Text, Text, &'a str) {
    let (a, rest) = cell(rt, row);
    let (b, wanted) = cell(rt, rest);
    (text_of(rt, a), text_of(rt, b), wanted)
}

#[test]
fn two_texts_are_put_together_and_compared(rt: HostRuntime) {
    for row in &rows(&rt, PAIRS) {
        let (a, b, wanted) = pair_of(&rt, row);
        let (joined, wanted) = cell(&rt, wanted);
        let (same, wanted) = cell(&rt, wanted);
        let (starts, wanted) = cell(&rt, wanted);
        let (ends, order) = cell(&rt, wanted);
        assert!(rt; a.length() < 100 && b.length() < 100);
        let both = a.concat(rt.alloc(), &b).expect(&rt, "memory");
        assert!(rt; printed(&rt, &both).as_str() == joined, "{row}");
        assert!(rt; is_answer(a.same(&b), same), "{row}");
        assert!(rt; is_answer(a.starts(&b), starts), "{row}");
        assert!(rt; is_answer(a.ends(&b), ends), "{row}");
        assert_eq!(rt; a.compare(&b), number_of(&rt, order), "{row}");
    }
    compare_laws();
}

#[test]
fn the_least_place_of_a_unit_is_found(rt: HostRuntime) {
    for row in &rows(&rt, PLACES) {
        let (units, rest) = cell(&rt, row);
        let (unit, place) = cell(&rt, rest);
        let found = text_of(&rt, units).index_of(unit_of(&rt, unit));
        let wanted = u32::try_from(number_of(&rt, place)).ok();
        assert_eq!(rt; found, wanted, "{row}");
    }
    place_laws();
}

#[test]
fn numbers_are_written_in_decimal(rt: HostRuntime) {
    for row in &rows(&rt, DECIMALS) {
        let (number, wanted) = cell(&rt, row);
        let text = Text::decimal(rt.alloc(), number_of(&rt, number)).expect(&rt, "memory");
        assert!(rt; printed(&rt, &text).as_str() == wanted, "{row}");
    }
    let least = Text::decimal(rt.alloc(), i32::MIN).expect(&rt, "memory");
    assert_eq!(rt; least.length(), 11);
}

// Texts of 65,536 units that differ in the last one.
#[test]
fn large_texts_are_compared(rt: HostRuntime) {
    let alloc = rt.alloc();
    let mut units = vec![in alloc; 97u16; 65536].expect(&rt, "memory");
    assert!(rt; units.len() == 65536);
    let a = Text::of_units(alloc, &units).expect(&rt, "memory");
    units[65535] = 98;
    let b = Text::of_units(alloc, &units).expect(&rt, "memory");
    assert_eq!(rt; a.compare(&b), -1);
    assert_eq!(rt; b.index_of(98), Some(65535));
    assert!(rt; !a.same(&b) && !a.starts(&b));
    assert!(rt; a.length() < 100000 && b.length() < 100000);
    let both = a.concat(alloc, &b).expect(&rt, "memory");
    assert!(rt; both.starts(&a) && both.ends(&b) && both.length() == 131072);
}
