// Tables of cases: one text, a row a line.
use std::process::Abort;

/// The rows of a table: its lines, but for blank ones.
pub(crate) fn rows<'a, R: Abort + AllocGlobal>(rt: &R, table: &'a str) -> Vec<&'a str> {
    let mut rows = Vec::new(rt.alloc());
    for line in table.lines() {
        let row = line.trim();
        if !row.is_empty() {
            rows.push(row).expect(rt, "memory");
        }
    }
    rows
}

/// The bytes of hexadecimal digits, between which there may be blanks.
pub(crate) fn bytes_of<R: Abort + AllocGlobal>(rt: &R, digits: &str) -> Vec<u8> {
    let mut joined = String::new(rt.alloc());
    for word in digits.split_whitespace() {
        joined.push_str(word).expect(rt, "memory");
    }
    hex::decode(rt.alloc(), joined.as_str()).expect(rt, "hexadecimal digits")
}
