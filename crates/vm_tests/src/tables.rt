// Tables of cases. A table is one text, a row a line, with bars between its cells: the prover takes a text whole, but
// looks at each value of an array.
use st_text::Text;
use std::fmt::Write;
use std::process::Abort;

/// The rows of a table: its lines, but for blank ones and those of remarks.
pub(crate) fn rows<'a, R: Abort + AllocGlobal>(rt: &R, table: &'a str) -> Vec<&'a str> {
    let mut rows = Vec::new(rt.alloc());
    for line in table.lines() {
        let row = line.trim();
        if !row.is_empty() && !row.starts_with("//") {
            rows.push(row).expect(rt, "memory");
        }
    }
    rows
}

/// The first cell of a row, and what stands behind its bar.
pub(crate) fn cell<'a, R: Abort>(rt: &R, row: &'a str) -> (&'a str, &'a str) {
    let (front, back) = row.split_once('|').expect(rt, "a row has its bars");
    (front.trim(), back.trim())
}

pub(crate) fn number_of<R: Abort>(rt: &R, digits: &str) -> i32 {
    digits.parse::<i32>().expect(rt, "a number")
}

pub(crate) fn place_of<R: Abort>(rt: &R, digits: &str) -> u32 {
    digits.parse::<u32>().expect(rt, "a place")
}

pub(crate) fn unit_of<R: Abort>(rt: &R, digits: &str) -> u16 {
    u16::from_str_radix(digits, 16).expect(rt, "hexadecimal digits")
}

/// The text of units that are written in hexadecimal.
pub(crate) fn text_of<R: Abort + AllocGlobal>(rt: &R, cell: &str) -> Text {
    let mut units = Vec::new(rt.alloc());
    for word in cell.split_whitespace() {
        units.push(unit_of(rt, word)).expect(rt, "memory");
    }
    assert!(rt; units.len() < 100);
    Text::of_units(rt.alloc(), &units).expect(rt, "memory")
}

/// The units of a text in hexadecimal.
pub(crate) fn printed<R: Abort + AllocGlobal>(rt: &R, text: &Text) -> String {
    let mut printed = String::new(rt.alloc());
    for unit in text.units() {
        if !printed.is_empty() {
            printed.push(' ').expect(rt, "memory");
        }
        write!(printed, "{unit:04x}").expect(rt, "memory");
    }
    printed
}
