// The text forms of sites: as they are written, and other texts, with the place where each leaves the grammar.
use crate::names::method;
use crate::tables::{number_of, rows, three_of, two_of};
use jv_base::{
    Goal, Kind, Name, Site, TextFault, goal_order, kind_text, one_site, read_site, site_text,
};
use std::process::Abort;

/// The kinds of assertions, in the order of the report.
pub(crate) const KINDS: [Kind; 8] = [
    Kind::Null,
    Kind::Zero,
    Kind::Bounds,
    Kind::NegSize,
    Kind::Store,
    Kind::Cast,
    Kind::StrIndex,
    Kind::Assert,
];

pub(crate) fn goal<R: Abort + AllocGlobal>(
    rt: &R,
    class: &str,
    name: &str,
    pc: u16,
    kind: Kind,
) -> Goal {
    let method = method(rt, class, name, "()V");
    Goal {
        site: Site { method, pc },
        kind,
    }
}

// The kind, the pc and the text of a site.
const SITES: &str = "
    Null | 0 | T.<init>:()V@0:null
    Zero | 7 | T.<init>:()V@7:zero
    Bounds | 10 | T.<init>:()V@10:bounds
    NegSize | 255 | T.<init>:()V@255:negsize
    Store | 256 | T.<init>:()V@256:store
    Cast | 1000 | T.<init>:()V@1000:cast
    StrIndex | 65534 | T.<init>:()V@65534:strindex
    Assert | 65535 | T.<init>:()V@65535:assert
";

/// The text of the site of `T.<init>` at a pc, of the kind that is printed so.
fn text_of<R: Abort + AllocGlobal>(rt: &R, kind: &str, pc: u16) -> Name {
    let alloc = rt.alloc();
    let mut text = Name::new(alloc);
    for each in KINDS {
        if format!(in alloc; "{each:?}").expect(rt, "memory").as_str() == kind {
            let goal = goal(rt, "T", "<init>", pc, each);
            text = site_text(alloc, &goal).expect(rt, "memory");
            assert!(rt; text.as_str().ends_with(kind_text(each)));
        }
    }
    text
}

#[test]
fn sites_are_written_and_read(rt: HostRuntime) {
    let alloc = rt.alloc();
    for row in &rows(&rt, SITES) {
        let (kind, pc, text) = three_of(&rt, row);
        let written = text_of(&rt, kind, number_of(&rt, pc));
        assert!(rt; written.as_str() == text, "{row}");
        let read = read_site(alloc, text).expect(&rt, "no fault");
        let printed = format!(in alloc; "{:?} | {}", read.kind, read.site.pc).expect(&rt, "memory");
        assert!(rt; row.starts_with(printed.as_str()), "{row}");
        assert!(rt;
            site_text(alloc, &read).expect(&rt, "memory").as_str() == text,
            "{row}"
        );
    }
    one_site();
    goal_order();
}

// How many characters of a text begin one of a site, and the text.
const REFUSED: &str = "
    0 |
    1 | T
    0 | é.f:()V@0:null
    2 | T.:()V@0:null
    5 | T.<in>:()V@0:null
    7 | T.<init:()V@0:null
    12 | T.<clinit>:(@0:null
    7 | T.f:()V
    8 | T.f:()V@
    8 | T.f:()V@:null
    8 | T.f:()V@-1:null
    9 | T.f:()V@00:null
    12 | T.f:()V@65536:null
    9 | T.f:()V@1
    11 | T.f:()V@1:nil
    13 | T.f:()V@0:str
    14 | T.f:()V@0:nullx
    18 | T.<init>:()V@0:nul
    21 | T.<clinit>:()V@0:zeroo
";

#[test]
fn other_texts_are_no_sites(rt: HostRuntime) {
    let alloc = rt.alloc();
    for row in &rows(&rt, REFUSED) {
        let (place, text) = two_of(&rt, row);
        let place = u64::from(number_of(&rt, place));
        assert!(rt; is_bad(&read_site(alloc, text), place), "{row}");
    }
}

/// Whether a text was refused at a place.
pub(crate) fn is_bad<T>(read: &Result<T, TextFault>, place: u64) -> bool {
    matches!(read, Err(TextFault::Bad(at)) if *at == place)
}
