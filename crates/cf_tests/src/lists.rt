// Lists: each call on small ones, copies and loops, and at a large size.
use crate::tables::{four_of, rows, three_of};
use jv_base::Name;
use jv_list::{List, TryCopy};
use std::process::Abort;

/// The numbers of a text, with blanks between them.
fn numbers<R: Abort + AllocGlobal>(rt: &R, text: &str) -> List<u64> {
    let mut numbers = List::new(rt.alloc());
    for word in text.split_whitespace() {
        numbers
            .add(word.parse::<u64>().expect(rt, "a number"))
            .expect(rt, "memory");
    }
    numbers
}

/// Changes a list by a call with its arguments.
fn change<R: Abort + AllocGlobal>(rt: &R, list: &mut List<u64>, call: &str) {
    let (name, rest) = call.split_once(' ').unwrap_or((call, ""));
    let arguments = numbers(rt, rest);
    let first = arguments.get(0).copied().unwrap_or(0);
    match name {
        "add" => list.add(first).expect(rt, "memory"),
        "push" => assert!(rt; list.push(first).is_ok()),
        "extend" => list.extend(arguments.as_slice()).expect(rt, "memory"),
        "set" => {
            assert!(rt; (first as usize) < list.length());
            list.set(first as usize, arguments.last().copied().unwrap_or(0));
        }
        "pop" => {
            let last = list.last().copied();
            assert!(rt; list.pop() == last);
        }
        "reverse" => list.reverse(),
        "truncate" => list.truncate(first as usize),
        _ => list.clear(),
    }
}

// A list, a call, and the list that it leaves.
const CHANGES: &str = "
    | add 7 | 7
    1 2 | add 7 | 1 2 7
    1 2 | push 7 | 1 2 7
    | extend |
    1 2 | extend 3 4 | 1 2 3 4
    1 2 3 | set 0 9 | 9 2 3
    1 2 3 | set 2 9 | 1 2 9
    | pop |
    1 2 3 | pop | 1 2
    1 2 3 | reverse | 3 2 1
    1 2 3 | truncate 2 | 1 2
    1 2 3 | truncate 0 |
    1 2 3 | truncate 4 | 1 2 3
    | clear |
    1 2 3 | clear |
";

#[test]
fn calls_change_lists(rt: HostRuntime) {
    for row in &rows(&rt, CHANGES) {
        let (before, call, after) = three_of(&rt, row);
        let mut list = numbers(&rt, before);
        change(&rt, &mut list, call);
        assert!(rt; list.as_slice() == numbers(&rt, after).as_slice(), "{row}");
    }
}

// A list, an index, the element there, and the last one.
const READS: &str = "
    | 0 | |
    5 | 0 | 5 | 5
    5 | 1 | | 5
    5 6 7 | 1 | 6 | 7
    5 6 7 | 3 | | 7
    3 1 3 | 2 | 3 | 3
";

#[test]
fn elements_are_read_and_copied(rt: HostRuntime) {
    let alloc = rt.alloc();
    for row in &rows(&rt, READS) {
        let (items, index, there, last) = four_of(&rt, row);
        let list = numbers(&rt, items);
        let index = index.parse::<usize>().expect(&rt, "a number");
        assert!(rt; list.is_empty() == items.is_empty(), "{row}");
        assert!(rt; list.get(index) == numbers(&rt, there).last(), "{row}");
        assert!(rt; list.last() == numbers(&rt, last).last(), "{row}");
        let mut copy = List::with_capacity(alloc, list.length()).expect(&rt, "memory");
        for item in &list {
            copy.add(*item).expect(&rt, "memory");
        }
        let mut moved = List::new(alloc);
        for item in copy {
            moved.add(item).expect(&rt, "memory");
        }
        assert!(rt; moved.as_slice() == list.as_slice(), "{row}");
        let copied = List::copied(alloc, list.as_slice()).expect(&rt, "memory");
        assert!(rt; copied.iter().count() == list.length(), "{row}");
        assert!(rt; copied.into_vec().as_slice() == list.as_slice(), "{row}");
    }
}

fn are_names(list: &List<Name>, texts: &[&str]) -> bool {
    list.as_slice()
        .iter()
        .map(|name| name.as_str())
        .eq(texts.iter().copied())
}

#[test]
fn a_list_of_names_is_copied(rt: HostRuntime) {
    let alloc = rt.alloc();
    let texts = ["a", "é", ""];
    let mut names = List::new(alloc);
    for text in texts {
        let name = Name::from_text(alloc, text).expect(&rt, "memory");
        assert!(rt; names.push(name).is_ok());
    }
    let copy = names.copy(alloc).expect(&rt, "memory");
    assert!(rt; are_names(&names, &texts) && are_names(&copy, &texts));
}

#[test]
fn a_list_takes_65536_elements(rt: HostRuntime) {
    let mut list = List::new(rt.alloc());
    for number in 0..65536_u32 {
        assert!(rt; list.push(number).is_ok());
        list.add(number).expect(&rt, "memory");
    }
    assert!(rt; list.length() == 131072);
    assert!(rt; *list.at(131070) == 65535);
    let evens = list.as_slice().iter().step_by(2).copied();
    assert!(rt; evens.eq(0..65536));
}
