// Class files written (JVM Specification SE 8, 4): the smallest one, one that javac wrote, with bytes in the place of its own, and
// others written by hand, each read and given back byte for byte.
use crate::bodies::{large, with_code};
use crate::classes::changed;
use crate::structures::SMALLEST;
use crate::tables::{bytes_of, rows, two_of};
use cf_class::read_class;
use cf_structure::ClassFault;
use cf_write::{canonical, round_trip, write_class};
use std::alloc::Global;
use std::process::Abort;

/// Whether the class that a file is is written as that file.
fn given_back(alloc: Global, file: &[u8]) -> Result<bool, ClassFault> {
    let class = read_class(alloc, file)?;
    let written = write_class(alloc, &class)?;
    Ok(written.as_slice() == file)
}

fn is_given_back<R: Abort + AllocGlobal>(rt: &R, file: &[u8]) -> bool {
    given_back(rt.alloc(), file).expect(rt, "a class")
}

// Class files.
#[rattlefmt::skip]
const FILES: &str = "
    // a text of 61, 00, e9 and 20ac: units of one, two and three bytes, and that of 0
    cafebabe00000034 0006 070002 01000154 070004 0100106a6176612f6c616e672f4f626a656374 01000861c080c3a9e282ac 0021 0001 0003 0000 0000 0000 0000
    // the least and the greatest numbers of an int and a long, and the indices behind a Long and a Double
    cafebabe00000034 000e 070002 01000154 070004 0100106a6176612f6c616e672f4f626a656374 0380000000 037fffffff 058000000000000000 057fffffffffffffff 06fff8000000000001 047fc00001 0021 0001 0003 0000 0000 0000 0000
    // an interface, and two attributes of the class that are passed over, one of them empty
    cafebabeffff002d 0005 070002 01000154 070004 0100106a6176612f6c616e672f4f626a656374 0021 0001 0003 0001 0003 0000 0000 0002 000200000000 0002000000030a0b0c
";

#[test]
fn a_file_of_hand_is_given_back(rt: HostRuntime) {
    assert!(rt; is_given_back(&rt, &bytes_of(&rt, SMALLEST)));
    for file in &rows(&rt, FILES) {
        assert!(rt; is_given_back(&rt, &bytes_of(&rt, file)), "{file}");
    }
    round_trip();
    canonical();
}

// The changes of the file of javac.
#[rattlefmt::skip]
pub(crate) const CHANGES: &str = "
    4:00ff002d
    // a Code in the class, of a content that is none: it does not count
    294:00010014000000030a0b0c
    // the field's ConstantValue under another name
    197:0015
";

#[test]
fn the_file_of_javac_is_given_back(rt: HostRuntime) {
    assert!(rt; is_given_back(&rt, &changed(&rt, "")));
    for changes in &rows(&rt, CHANGES) {
        assert!(rt; is_given_back(&rt, &changed(&rt, changes)), "{changes}");
    }
}

// The code of a method of a class whose pool has each kind of entry, and the rows of its exception table.
pub(crate) const CODES: &str = "
    b1 |
    b1 | 0000000100000002
    000000b1 | 00000001000300020001000200030000
    // switches with padding that is not 0
    aa010203000000180000000000000001000000180000001800b1 |
    00ab01020000001300000001ffffffff00000013b1 |
    c4150000c484000100ffa70003b1 |
";

#[test]
fn a_code_is_given_back(rt: HostRuntime) {
    for row in &rows(&rt, CODES) {
        let (code, table) = two_of(&rt, row);
        let file = with_code(&rt, &bytes_of(&rt, code), &bytes_of(&rt, table));
        assert!(rt; is_given_back(&rt, &file), "{row}");
    }
}

#[test]
fn a_class_of_65535_instructions_and_rows_is_given_back(rt: HostRuntime) {
    assert!(rt; is_given_back(&rt, &large(&rt, 65535)));
}
