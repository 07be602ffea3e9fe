// Copies of class files: a class is read and copied, and the copy is written as the file that was read.
use crate::bodies::{large, with_code};
use crate::classes::changed;
use crate::tables::{bytes_of, rows, two_of};
use crate::written::{CHANGES, CODES};
use cf_class::read_class;
use cf_copy::copy_class;
use cf_structure::ClassFault;
use cf_write::write_class;
use std::alloc::Global;
use std::process::Abort;

/// Whether a copy of the class that a file is is written as that file.
fn copied_back(alloc: Global, file: &[u8]) -> Result<bool, ClassFault> {
    let class = read_class(alloc, file)?;
    let copy = copy_class(alloc, &class)?;
    let written = write_class(alloc, &copy)?;
    Ok(written.as_slice() == file)
}

fn is_copied<R: Abort + AllocGlobal>(rt: &R, file: &[u8]) -> bool {
    copied_back(rt.alloc(), file).expect(rt, "a class")
}

#[test]
fn the_class_of_javac_is_copied(rt: HostRuntime) {
    assert!(rt; is_copied(&rt, &changed(&rt, "")));
    for changes in &rows(&rt, CHANGES) {
        assert!(rt; is_copied(&rt, &changed(&rt, changes)), "{changes}");
    }
}

#[test]
fn each_kind_of_entry_and_each_switch_is_copied(rt: HostRuntime) {
    for row in &rows(&rt, CODES) {
        let (code, table) = two_of(&rt, row);
        let file = with_code(&rt, &bytes_of(&rt, code), &bytes_of(&rt, table));
        assert!(rt; is_copied(&rt, &file), "{row}");
    }
}

#[test]
fn a_class_of_65535_instructions_and_rows_is_copied(rt: HostRuntime) {
    assert!(rt; is_copied(&rt, &large(&rt, 65535)));
}
