// Constant pools (JVM Specification SE 8, 4.4), with content and places that were worked out by hand.
use crate::tables::{bytes_of, number_of, rows, three_of, two_of};
use cf_pool::{Fault, Pool, PoolEntry, PoolFault, What, one_pool, read_pool, round_trip};
use std::alloc::{AllocError, Global};
use std::process::Abort;

// The magic number and the version of Java 8. The pool stands from place 8 on.
const HEAD: &str = "cafebabe 0000 0034";

/// A class file that begins with a pool of these bytes.
fn file<R: Abort + AllocGlobal>(rt: &R, pool: &str) -> Vec<u8> {
    let mut bytes = bytes_of(rt, HEAD);
    bytes
        .extend_from_slice(&bytes_of(rt, pool))
        .expect(rt, "memory");
    bytes
}

// The place after the pool, the bytes from place 8 on, and the entries.
const POOLS: &str = "
    10 | 0000 |
    10 | 0000 01 |
    10 | 0001 | Unusable
    10 | 0001 ffff | Unusable
    13 | 0002 01 0000 | Unusable, Utf8(List { items: [] })
    16 | 0002 01 0003 61c080 | Unusable, Utf8(List { items: [97, 0] })
    15 | 0002 03 fffffffe | Unusable, Integer(-2)
    15 | 0002 04 7fc00001 | Unusable, Float(2143289345)
    19 | 0003 05 8000000000000000 | Unusable, Long(-9223372036854775808), Unusable
    19 | 0003 06 400921fb54442d18 | Unusable, Double(4614256656552045848), Unusable
    13 | 0002 07 0001 | Unusable, Class(1)
    13 | 0002 08 ffff | Unusable, Str(65535)
    15 | 0002 09 0001 0002 | Unusable, Field(1, 2)
    15 | 0002 0a 0003 0004 | Unusable, Method(3, 4)
    15 | 0002 0b 0005 0006 | Unusable, InterfaceMethod(5, 6)
    15 | 0002 0c 0007 0008 | Unusable, NameAndType(7, 8)
    14 | 0002 0f 09 0100 | Unusable, MethodHandle(9, 256)
    13 | 0002 10 0002 | Unusable, MethodType(2)
    15 | 0002 12 1234 5678 21 | Unusable, InvokeDynamic(4660, 22136)
    22 | 0004 06 0000000000000001 07 0000 | Unusable, Double(1), Unusable, Class(0)
";

#[test]
fn each_kind_of_entry_is_read(rt: HostRuntime) {
    let alloc = rt.alloc();
    for row in &rows(&rt, POOLS) {
        let (place, pool, entries) = three_of(&rt, row);
        let (Pool { entries: found }, end) = read_pool(alloc, &file(&rt, pool)).expect(
            &rt, "no fault",
        );
        assert!(rt; end == u64::from(number_of(&rt, place)), "{row}");
        let wanted = format!(in alloc; "List {{ items: [{entries}] }}").expect(&rt, "memory");
        assert!(rt;
            format!(in alloc; "{found:?}")
                .expect(&rt, "memory")
                .as_str()
                == wanted.as_str(),
            "{row}"
        );
    }
    one_pool();
    round_trip();
}

// The kind and the place of the first fault, and the bytes from place 8 on.
const REFUSED: &str = "
    // The count is cut, or nothing stands where an entry should.
    Truncated 8 |
    Truncated 9 | 00
    Truncated 10 | 0002
    Truncated 10 | ffff
    Truncated 13 | ffff 07 0001
    // Bytes that are no tag.
    BadTag 10 | 0002 00
    BadTag 10 | 0002 02
    BadTag 10 | 0002 0d 0000
    BadTag 10 | 0002 0e 0000
    BadTag 10 | 0002 11 00000000
    BadTag 10 | 0002 13 0000
    BadTag 10 | 0002 14 0000
    BadTag 10 | 0002 ff
    BadTag 13 | 0003 07 000202
    BadTag 16 | 0003 01 000361626300
    // Each kind of entry, cut.
    Truncated 11 | 0002 01
    Truncated 12 | 0002 01 00
    Truncated 13 | 0002 01 0001
    Truncated 15 | 0002 01 ffff6162
    Truncated 14 | 0002 03 000000
    Truncated 14 | 0002 04 000000
    Truncated 18 | 0003 05 00000000000000
    Truncated 18 | 0003 06 00000000000000
    Truncated 12 | 0002 07 00
    Truncated 12 | 0002 08 00
    Truncated 14 | 0002 09 000100
    Truncated 14 | 0002 0a 000100
    Truncated 14 | 0002 0b 000100
    Truncated 14 | 0002 0c 000100
    Truncated 13 | 0002 0f 0100
    Truncated 12 | 0002 10 00
    Truncated 14 | 0002 12 000100
    // A Long or a Double without room for its second index, whole or cut.
    BadTag 10 | 0002 05 0000000000000001
    BadTag 10 | 0002 06 0000000000000001
    BadTag 10 | 0002 05
    BadTag 10 | 0002 06 00
    BadTag 19 | 0004 05 000000000000000106
    // Index 3 is the next one after a Long at index 1.
    Truncated 21 | 0004 05 00000000000000010700
    Truncated 21 | 0005 05 00000000000000010600
    // Texts that are there in full.
    BadUtf8 13 | 0002 01 000100
    BadUtf8 13 | 0002 01 0002c181
    BadUtf8 13 | 0002 01 0003e08080
    BadUtf8 13 | 0002 01 0004f09f9880
    BadUtf8 15 | 0002 01 0003616280
    BadUtf8 17 | 0003 07 000201000241ff
    // The length of the text cuts a unit, though its other byte follows.
    BadUtf8 13 | 0002 01 0001c3a9
    BadUtf8 14 | 0002 01 000261c3a9
    // The units of a text that passes the end are not judged.
    Truncated 15 | 0002 01 0003c181
    Truncated 14 | 0002 01 000200
    // The earlier fault is named.
    BadUtf8 13 | 0003 01 00018007
    BadTag 10 | 0003 02 01000180
    Truncated 17 | 0004 01 000161050001
    // The pool of the smallest class, with another tag, and with a text of C1 81 at index 2.
    BadTag 10 | 0005 02 0002 01000154 070004 0100106a6176612f6c616e672f4f626a656374 0021
    BadUtf8 16 | 0005 07 0002 010002c181 070004 0100106a6176612f6c616e672f4f626a656374 0021
";

/// The kind and the place of the first fault of bytes.
fn fault_of<R: Abort + AllocGlobal>(rt: &R, bytes: &[u8]) -> String {
    match read_pool(rt.alloc(), bytes) {
        Err(PoolFault::Malformed(fault)) => {
            format!(in rt.alloc(); "{:?} {}", fault.what, fault.place).expect(rt, "memory")
        }
        _ => String::new(rt.alloc()),
    }
}

#[test]
fn a_pool_out_of_form_has_its_first_fault(rt: HostRuntime) {
    let alloc = rt.alloc();
    for row in &rows(&rt, REFUSED) {
        let (fault, pool) = two_of(&rt, row);
        assert!(rt; fault_of(&rt, &file(&rt, pool)).as_str() == fault, "{row}");
    }
}

// The pool of a class T without members, of four entries, which ends at place 39.
const SMALLEST: &str = "0005 070002 01000154 070004 0100106a6176612f6c616e672f4f626a656374";

#[test]
fn the_smallest_class_ends_its_pool_at_39(rt: HostRuntime) {
    let alloc = rt.alloc();
    let bytes = file(&rt, SMALLEST);
    let (pool, place) = read_pool(alloc, &bytes).expect(&rt, "no fault");
    assert!(rt; (pool.entries.length(), place) == (5, 39));
    for length in 0..39 {
        let front = bytes.get(..length).unwrap_or_default();
        let fault = Fault {
            place: length as u64,
            what: What::Truncated,
        };
        assert!(rt;
            matches!(read_pool(alloc, front), Err(PoolFault::Malformed(found)) if found == fault)
        );
    }
}

#[test]
fn a_text_of_65535_units_is_an_entry(rt: HostRuntime) {
    let alloc = rt.alloc();
    let mut bytes = file(&rt, "0002 01 ffff");
    bytes.resize(65548, b'a').expect(&rt, "memory");
    let (pool, place) = read_pool(alloc, &bytes).expect(&rt, "no fault");
    assert!(rt; place == 65548);
    assert!(rt;
        matches!(pool.entries.as_slice(), [_, PoolEntry::Utf8(units)] if units.length() == 65535)
    );
}

#[test]
fn a_pool_of_65535_indices_is_read(rt: HostRuntime) {
    let alloc = rt.alloc();
    let mut bytes = file(&rt, "ffff");
    for _ in 1..65535 {
        bytes.extend_from_slice(&[7, 0, 1]).expect(&rt, "memory");
    }
    assert!(rt;
        read_pool(alloc, &bytes)
            .expect(&rt, "no fault")
            .0
            .entries
            .length()
            == 65535
    );
}

/// A vector of a byte, whose want of memory is one of pools.
fn pushed(alloc: Global) -> Result<Vec<u8>, PoolFault> {
    let mut bytes = Vec::new(alloc);
    bytes.push(7)?;
    Ok(bytes)
}

#[test]
fn faults_of_pools_are_printed(rt: HostRuntime) {
    let alloc = rt.alloc();
    assert!(rt; pushed(alloc).expect(&rt, "no fault").len() == 1);
    let fault = PoolFault::from(AllocError);
    assert!(rt; format!(in alloc; "{fault}").expect(&rt, "memory").as_str() == "no memory");
    let fault = PoolFault::Malformed(Fault {
        place: 8,
        what: What::Truncated,
    });
    assert!(rt;
        format!(in alloc; "{fault}").expect(&rt, "memory").as_str() == "malformed at 8: Truncated"
    );
}
