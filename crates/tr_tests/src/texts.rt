// The JSON texts of inputs. A row is `ENTRY | TREES | TEXT`, with the trees as `trees.rt` reads them. The texts are those of
// the form of inputs; each is compact JSON with its keys in order, as a JSON reader of another language writes it.
use crate::trees::input_of;
use jv_base::read_entry;
use std::process::Abort;
use tr_inputs::input_text;

const CASES: &str = r#"
    T.f:(II)V | 7 7 | {"args":[7,7]}
    T.f:(II)V | 7 1 | {"args":[7,1]}
    T.f:()V | | {"args":[]}
    T.f:(II)V | -2147483648 2147483647 | {"args":[-2147483648,2147483647]}
    T.f:(BBSSC)V | -128 127 -32768 32767 65535 | {"args":[-128,127,-32768,32767,65535]}
    T.f:(JJJ)V | -9223372036854775808L 0L 9223372036854775807L | {"args":[-9223372036854775808,0,9223372036854775807]}

    T.f:(ZZIC)V | 0 1 0 1 | {"args":[false,true,0,1]}
    T.f:([Z[I)V | 1 0 array:2 1 0 array:2 | {"args":[{"array":[true,false]},{"array":[1,0]}]}
    T.f:([[Z)V | 1 array:1 array:0 null array:3 | {"args":[{"array":[{"array":[true]},{"array":[]},null]}]}

    T.f:()V | object:0 | {"args":[{"object":{}}]}
    T.f:(Z)V | object:0 1 | {"args":[{"object":{}},true]}
    T.f:(ZI)V | 1 field:T.z:Z object:1 0 1 | {"args":[{"object":{"T.z:Z":true}},false,1]}

    T.f:(Ljava/lang/String;[ILT;)V | null null null | {"args":[null,null,null]}
    T.f:(Ljava/lang/String;)V | text: | {"args":[{"string":[]}]}
    T.f:(Ljava/lang/String;)V | text:72,105 | {"args":[{"string":[72,105]}]}
    T.f:(Ljava/lang/String;)V | text:0,55296,56320,65535 | {"args":[{"string":[0,55296,56320,65535]}]}
    T.f:([Ljava/lang/String;)V | text:90 null array:2 | {"args":[{"array":[{"string":[90]},null]}]}
    T.f:([J)V | 5L -5L array:2 | {"args":[{"array":[5,-5]}]}

    T.f:(LT;)V | 3 field:T.n:I 1 field:T.m:Z null field:S.t:LT; object:3 | {"args":[{"object":{"S.t:LT;":null,"T.m:Z":true,"T.n:I":3}}]}
    T.f:(LT;)V | 1 field:T.a:Z 1 field:T.B:I 1 field:T.a:I 1L field:T.a:J object:4 | {"args":[{"object":{"T.B:I":1,"T.a:I":1,"T.a:J":1,"T.a:Z":true}}]}
    T.f:(LT;)V | 2 field:T.x:I 2 field:p/T.x:I 2 field:S.x:I object:3 | {"args":[{"object":{"S.x:I":2,"T.x:I":2,"p/T.x:I":2}}]}
    T.f:(LT;)V | 1 0 array:2 field:T.f:[Z 1 array:1 field:T.g:[B object:2 | {"args":[{"object":{"T.f:[Z":{"array":[true,false]},"T.g:[B":{"array":[1]}}}]}
    T.f:(LT;)V | 4 field:T.n:I null field:T.t:LT; object:2 field:T.t:LT; 5 field:T.n:I object:2 | {"args":[{"object":{"T.n:I":5,"T.t:LT;":{"object":{"T.n:I":4,"T.t:LT;":null}}}}]}
    T.f:([LT;)V | 6 field:T.n:I object:1 null array:2 | {"args":[{"array":[{"object":{"T.n:I":6}},null]}]}

    T.f:(LT;)V | 8 field:T.q"r:I object:1 | {"args":[{"object":{"T.q\"r:I":8}}]}
    T.f:(LT;)V | 8 field:T.a:b:I object:1 | {"args":[{"object":{"T.a\\u003ab:I":8}}]}
    T.f:(LT;)V | 8 field:T.é:I object:1 | {"args":[{"object":{"T.\\u00e9:I":8}}]}
"#;

#[test]
fn inputs_have_the_text_of_their_form(rt: HostRuntime) {
    for line in CASES.lines() {
        let row = line.trim();
        if row.is_empty() {
            continue;
        }
        let (entry, rest) = row.split_once('|').expect(&rt, "an entry");
        let (words, text) = rest.split_once('|').expect(&rt, "trees and a text");
        let entry = read_entry(rt.alloc(), entry.trim()).expect(&rt, "an entry");
        let printed = input_text(rt.alloc(), &input_of(&rt, words), &entry).expect(&rt, "memory");
        assert!(&rt; printed.as_str() == text.trim(), "{row}");
    }
}
