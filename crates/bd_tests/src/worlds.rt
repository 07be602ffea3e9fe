// Small worlds, and the least sets over them.
ghost use Rattle.bd_core.specs.declared.item.Item.TheVariants as items;
ghost use Rattle.bd_core.specs.Told.{Fits};
ghost use Rattle.bd_core.specs.Loading.{IsKept};

use crate::tables::{bytes_of, rows};
use bd_core::{Core, Facts, Item, Member, Took, least_is_contained, run_laws};
use bd_scan::scan;
use cf_class::read_class;
use jv_base::{MethodId, Name};
use std::process::Abort;

// Three classes that were put together by hand: T.e makes an A and calls A.m; T.u makes a B, which extends A and
// overrides m. In the second T, e calls u as well.
const T_ALONE: &str = "
    cafebabe000000340014010001410700010100063c696e69743e0100032829560c000300040a000200050100016d0c000700040a00020008
    010004436f6465010001650100014207000c0a000d000501000175010001540700100100106a6176612f6c616e672f4f626a656374070012
    0021001100130000000000020008000b00040001000a00000017000800080000000bbb000259b70006b60009b1000000000008000f000400
    01000a000000150008000800000009bb000d59b7000e57b1000000000000
";

const T_CALLS: &str = "
    cafebabe000000340016010001410700010100063c696e69743e0100032829560c000300040a000200050100016d0c000700040a00020008
    0100015407000a010001750c000c00040a000b000d010004436f646501000165010001420700110a001200050100106a6176612f6c616e67
    2f4f626a6563740700140021000b00150000000000020008001000040001000f0000001a000800080000000ebb000259b70006b60009b800
    0eb1000000000008000c00040001000f000000150008000800000009bb001259b7001357b1000000000000
";

const A: &str = "
    cafebabe00000034000b0100106a6176612f6c616e672f4f626a6563740700010100063c696e69743e0100032829560c000300040a000200
    05010004436f64650100016d010001410700090021000a0002000000000002000000030004000100070000001100080008000000052ab700
    06b100000000000000080004000100070000000d0008000800000001b1000000000000
";

const B: &str = "
    cafebabe00000034000b010001410700010100063c696e69743e0100032829560c000300040a00020005010004436f64650100016d010001
    420700090021000a0002000000000002000000030004000100070000001100080008000000052ab70006b100000000000000080004000100
    070000000d0008000800000001b1000000000000
";

// What `javac --release 8 -g:none` of JDK 17 wrote of this source.
//     interface Shape { int area(); default int twice() { return area() * 2; } }
//     class Square implements Shape { int side; Square(int s) { side = s; } public int area() { return side * side; } }
//     class Round implements Shape { public int area() { return 3; } }
//     class Start { static int calls; static { calls = 1; }
//       static void run() { Shape s = new Square(2); System.out.println(s.twice()); calls++; }
//       static void unused() { new Round(); } }
const START: &str = "
    cafebabe00000034002a0a000200030700040c000500060100106a6176612f6c616e672f4f626a6563740100063c696e69743e0100032829
    560700080100065371756172650a0007000a0c0005000b0100042849295609000d000e07000f0c001000110100106a6176612f6c616e672f
    53797374656d0100036f75740100154c6a6176612f696f2f5072696e7453747265616d3b0b001300140700150c0016001701000553686170
    6501000574776963650100032829490a0019001a07001b0c001c000b0100136a6176612f696f2f5072696e7453747265616d010007707269
    6e746c6e09001e001f0700200c00210022010005537461727401000563616c6c7301000149070024010005526f756e640a00230003010004
    436f646501000372756e010006756e757365640100083c636c696e69743e0020001e00020000000100080021002200000004000000050006
    000100260000001100010001000000052ab70001b100000000000800270006000100260000002a000300010000001ebb00075905b700094b
    b2000c2ab900120100b60018b2001d0460b3001db10000000000080028000600010026000000150002000000000009bb002359b7002557b1
    000000000008002900060001002600000011000100000000000504b3001db1000000000000
";

const SQUARE: &str = "
    cafebabe0000003400130a000200030700040c000500060100106a6176612f6c616e672f4f626a6563740100063c696e69743e0100032829
    56090008000907000a0c000b000c010006537175617265010004736964650100014907000e01000553686170650100042849295601000443
    6f6465010004617265610100032829490020000800020001000d00010000000b000c0000000200000005000f000100100000001600020002
    0000000a2ab700012a1bb50007b1000000000001001100120001001000000016000200010000000a2ab400072ab4000768ac000000000000
";

const SHAPE: &str = "
    cafebabe00000034000b0b000200030700040c000500060100055368617065010004617265610100032829490700080100106a6176612f6c
    616e672f4f626a6563740100057477696365010004436f646506000002000700000000000204010005000600000001000900060001000a00
    00001500020001000000092ab9000101000568ac000000000000
";

const ROUND: &str = "
    cafebabe00000034000e0a000200030700040c000500060100106a6176612f6c616e672f4f626a6563740100063c696e69743e0100032829
    56070008010005526f756e6407000a0100055368617065010004436f64650100046172656101000328294900200007000200010009000000
    020000000500060001000b0000001100010001000000052ab70001b1000000000001000c000d0001000b0000000e000100010000000206ac
    000000000000
";

// What is listed for `e` of the first T: by the rules, by hand.
const ALONE: &str = "
    class A
    class T
    class java/io/Serializable
    class java/lang/Exception
    class java/lang/NullPointerException
    class java/lang/Object
    class java/lang/RuntimeException
    class java/lang/Throwable
    instantiated A
    instantiated java/lang/NullPointerException
    method A.<init>:()V
    method A.m:()V
    method T.e:()V
    method java/lang/Object.<init>:()V
";

// For `e` of the second: B's method is selected as well.
const CALLS: &str = "
    class A
    class B
    class T
    class java/io/Serializable
    class java/lang/Exception
    class java/lang/NullPointerException
    class java/lang/Object
    class java/lang/RuntimeException
    class java/lang/Throwable
    instantiated A
    instantiated B
    instantiated java/lang/NullPointerException
    method A.<init>:()V
    method A.m:()V
    method B.<init>:()V
    method B.m:()V
    method T.e:()V
    method T.u:()V
    method java/lang/Object.<init>:()V
";

// Without A's class file its methods are not there, and its name is known all the same.
const WITHOUT_A: &str = "
    class A
    class T
    class java/io/Serializable
    class java/lang/Exception
    class java/lang/NullPointerException
    class java/lang/Object
    class java/lang/RuntimeException
    class java/lang/Throwable
    instantiated A
    instantiated java/lang/NullPointerException
    method T.e:()V
";

// For `run` of Start: a default method, an initialiser, a method of the library; Round is made nowhere.
const RUNS: &str = "
    class Shape
    class Square
    class Start
    class java/io/PrintStream
    class java/io/Serializable
    class java/lang/Exception
    class java/lang/NullPointerException
    class java/lang/Object
    class java/lang/RuntimeException
    class java/lang/System
    class java/lang/Throwable
    instantiated Square
    instantiated java/io/PrintStream
    instantiated java/lang/NullPointerException
    method Shape.twice:()I
    method Square.<init>:(I)V
    method Square.area:()I
    method Start.<clinit>:()V
    method Start.run:()V
    method java/io/PrintStream.println:(I)V
    method java/lang/Object.<init>:()V
";

fn name_of<R: Abort + AllocGlobal>(rt: &R, text: &str) -> Name {
    Name::from_text(rt.alloc(), text).expect(rt, "memory")
}

/// What there is under the name of a class.
fn class_of<R: Abort + AllocGlobal>(rt: &R, classes: &[&str], name: &Name) -> Facts
    ensures { Fits (items.Class name.now) result }
{
    'classes: for digits in classes {
        let class = read_class(rt.alloc(), &bytes_of(rt, digits)).expect(rt, "a class");
        if class.this_class.name.equals(name) {
            return Facts::Class(class);
        }
    }
    Facts::Absent
}

/// What there is of an item.
fn facts_of<R: Abort + AllocGlobal>(rt: &R, core: &Core, classes: &[&str], item: &Item) -> Facts
    ensures { Fits item.now result }
{
    match item {
        Item::Class(name) => class_of(rt, classes, name),
        Item::Method(method) => {
            let class = core
                .class(&method.class)
                .expect(rt, "a class that was read");
            Facts::Method(scan(rt.alloc(), class, method).expect(rt, "memory"))
        }
    }
}

/// A worker takes an item and gives its facts; whether one was pending.
fn step<R: Abort + AllocGlobal>(rt: &R, core: &mut Core, classes: &[&str]) -> bool
    requires { IsKept core.old }
    ensures { IsKept core.new }
{
    match core.take(0) {
        Took::Item(item) => {
            let facts = facts_of(rt, core, classes, &item);
            assert!(rt; core.give(0, &item, facts).is_ok());
            true
        }
        other => {
            assert!(rt; matches!(other, Took::Closed));
            false
        }
    }
}

/// Tells a core all that it asks for.
fn tell_all<R: Abort + AllocGlobal>(rt: &R, loader: &mut Core, classes: &[&str])
    requires { IsKept loader.old }
    ensures { IsKept loader.new }
{
    'steps: for _ in 0..1000 {
        if !step(rt, loader, classes) {
            break;
        }
    }
}

/// A method that is static and has neither parameters nor a result.
fn entry_of<R: Abort + AllocGlobal>(rt: &R, class: &str, name: &str) -> MethodId {
    MethodId {
        class: name_of(rt, class),
        name: name_of(rt, name),
        desc: name_of(rt, "()V"),
    }
}

/// The line of a member that is listed.
fn line_of<R: Abort + AllocGlobal>(rt: &R, member: &Member) -> Option<String> {
    let alloc = rt.alloc();
    let line = match member {
        Member::Known(class) => format!(in alloc; "class {}", class.as_str()),
        Member::Made(class) => format!(in alloc; "instantiated {}", class.as_str()),
        Member::Method(m) => format!(in alloc;
            "method {}.{}:{}",
            m.class.as_str(),
            m.name.as_str(),
            m.desc.as_str()
        ),
        _ => return None,
    };
    Some(line.expect(rt, "memory"))
}

fn lists<R: Abort + AllocGlobal>(rt: &R, classes: &[&str], entry: (&str, &str), wanted: &str) {
    let entry = entry_of(rt, entry.0, entry.1);
    let mut core = Core::start(rt.alloc(), entry, 2).expect(rt, "memory");
    tell_all(rt, &mut core, classes);
    let members = core.members().expect(rt, "memory");
    let mut lines = Vec::new(rt.alloc());
    for member in &members {
        if let Some(line) = line_of(rt, member) {
            lines.push(line).expect(rt, "memory");
        }
    }
    lines.sort().expect(rt, "memory");
    let wanted = rows(rt, wanted);
    assert!(rt; lines.len() == wanted.len(), "{lines:?}");
    for (line, row) in lines.iter().zip(wanted.iter()) {
        assert!(rt; line.as_str() == *row, "{line}: {row}");
    }
}

#[test]
fn the_least_sets_of_small_worlds_are_found(rt: HostRuntime) {
    lists(&rt, &[T_ALONE, A, B], ("T", "e"), ALONE);
    lists(&rt, &[B, A, T_CALLS], ("T", "e"), CALLS);
    lists(&rt, &[T_ALONE], ("T", "e"), WITHOUT_A);
    lists(&rt, &[START, SQUARE, SHAPE, ROUND], ("Start", "run"), RUNS);
    least_is_contained();
    run_laws();
}

#[test]
fn an_item_is_one_workers_until_it_is_given_back(rt: HostRuntime) {
    let mut core = Core::start(rt.alloc(), entry_of(&rt, "T", "e"), 2).expect(&rt, "memory");
    let wanted = Item::Class(name_of(&rt, "T"));
    match core.take(0) {
        Took::Item(item) => {
            assert!(&rt; item == wanted);
            assert!(&rt; matches!(core.take(1), Took::Later));
            core.give_back(0, &item);
        }
        _ => panic!(&rt; "nothing was taken"),
    }
    match core.take(1) {
        Took::Item(item) => {
            assert!(&rt; item == wanted);
            assert!(&rt; core.give(1, &item, Facts::Absent).is_ok());
        }
        _ => panic!(&rt; "nothing was taken"),
    }
    assert!(&rt; matches!(core.take(0), Took::Closed));
    assert!(&rt; core.events().len() == 4);
    assert!(&rt; core.class(&name_of(&rt, "T")).is_none());
}
