// Tables of cases. A table is one text, a row a line, with bars between its cells: the prover takes a text whole, but
// looks at each value of an array.
use std::process::Abort;

/// The rows of a table: its lines, but for blank ones and those of remarks.
pub(crate) fn rows<'a, R: Abort + AllocGlobal>(rt: &R, table: &'a str) -> Vec<&'a str> {
    let mut rows = Vec::new(rt.alloc());
    for line in table.lines() {
        let row = line.trim();
        if !row.is_empty() && !row.starts_with("//") {
            rows.push(row).expect(rt, "memory");
        }
    }
    rows
}

/// What stands before and behind a mark, without the blanks around it.
pub(crate) fn cut<'a, R: Abort>(rt: &R, text: &'a str, mark: char) -> (&'a str, &'a str) {
    let (front, back) = text.split_once(mark).expect(rt, "a row has its marks");
    (front.trim(), back.trim())
}

pub(crate) fn two_of<'a, R: Abort>(rt: &R, row: &'a str) -> (&'a str, &'a str) {
    cut(rt, row, '|')
}

pub(crate) fn three_of<'a, R: Abort>(rt: &R, row: &'a str) -> (&'a str, &'a str, &'a str) {
    let (first, rest) = cut(rt, row, '|');
    let (second, third) = cut(rt, rest, '|');
    (first, second, third)
}

pub(crate) fn four_of<'a, R: Abort>(rt: &R, row: &'a str) -> (&'a str, &'a str, &'a str, &'a str) {
    let (first, rest) = cut(rt, row, '|');
    let (second, third, fourth) = three_of(rt, rest);
    (first, second, third, fourth)
}

pub(crate) fn number_of<R: Abort>(rt: &R, text: &str) -> u16 {
    text.parse::<u16>().expect(rt, "a number")
}

/// The bytes of hexadecimal digits, between which there may be blanks.
pub(crate) fn bytes_of<R: Abort + AllocGlobal>(rt: &R, digits: &str) -> Vec<u8> {
    let mut joined = String::new(rt.alloc());
    for word in digits.split_whitespace() {
        joined.push_str(word).expect(rt, "memory");
    }
    hex::decode(rt.alloc(), joined.as_str()).expect(rt, "hexadecimal digits")
}
