// Texts in modified UTF-8 (JVM Specification SE 8, 4.4.7).
use crate::tables::{bytes_of, number_of, rows, two_of};
use cf_pool::{Fault, PoolFault, What, one_text, units_of};
use std::fmt::Write;

// A text, and its units.
const TEXTS: &str = "
     |
    41 | 0041
    017f | 0001 007f
    c080 | 0000
    c280 | 0080
    dfbf | 07ff
    e0a080 | 0800
    efbfbf | ffff
    ed9fbf | d7ff
    eda080 | d800
    edbfbf | dfff
    eda0bdedb880 | d83d de00
    61c3a9e4b8ad7a | 0061 00e9 4e2d 007a
";

#[test]
fn texts_are_read_as_their_units(rt: HostRuntime) {
    let alloc = rt.alloc();
    for row in &rows(&rt, TEXTS) {
        let (text, units) = two_of(&rt, row);
        let found = units_of(alloc, &bytes_of(&rt, text)).expect(&rt, "no fault");
        let mut printed = String::new(alloc);
        for unit in found.as_slice() {
            write!(printed, "{unit:04x} ").expect(&rt, "memory");
        }
        assert!(rt; printed.as_str().trim() == units, "{row}");
    }
    one_text();
}

// The place of the first unit at fault, and the text.
const REFUSED: &str = "
    // 0 is no byte of its own.
    0 | 00
    2 | 616200
    // Two bytes for 1 and for 0x7f, three for 0, for 1 and for 0x7ff.
    0 | c081
    0 | c181
    0 | c1bf
    0 | e08080
    0 | e08081
    0 | e09fbf
    // The four bytes of standard UTF-8.
    0 | f09f9880
    1 | 78f48fbfbf
    // Bytes that begin no unit.
    0 | 80
    0 | bf
    1 | 41f8
    1 | 41ff
    0 | feff
    // Units that the end cuts.
    0 | c3
    1 | 41c0
    0 | e4
    2 | 4142e4b8
    // A following byte that is none.
    0 | c328
    0 | c3c3a9
    0 | e428ad
    0 | e4b828
    0 | e4b8c080
    // Behind a pair of surrogates, and behind one of them.
    6 | eda0bdedb88080
    3 | eda0bdedb8
";

#[test]
fn a_text_out_of_form_has_its_first_unit_at_fault(rt: HostRuntime) {
    let alloc = rt.alloc();
    for row in &rows(&rt, REFUSED) {
        let (place, text) = two_of(&rt, row);
        let place = u64::from(number_of(&rt, place));
        let fault = Fault {
            place,
            what: What::BadUtf8,
        };
        let found = units_of(alloc, &bytes_of(&rt, text));
        assert!(rt;
            matches!(found, Err(PoolFault::Malformed(at)) if at == fault),
            "{row}"
        );
    }
}

#[test]
fn a_text_of_65535_units_is_read(rt: HostRuntime) {
    let alloc = rt.alloc();
    let text = "\u{ffff}".repeat(alloc, 65535).expect(&rt, "memory");
    let units = units_of(alloc, text.as_bytes()).expect(&rt, "no fault");
    assert!(rt; units.length() == 65535);
    assert!(rt; units.as_slice().iter().all(|unit| *unit == 0xffff));
}
