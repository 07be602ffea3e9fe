// Which methods of class files have shapes.
use crate::class::{class_of, method_of};
use crate::code::{cell, is_row};
use ck_shapes::{ShapeFault, check_shapes, signatures};
use std::test::Fail;

// max_stack and max_locals; the method, static or not; the handlers (from, below, handler); the code, where `*` says how often
// bytes stand; whether there are shapes. The JVM of JDK 17 says the same of each row: it verifies such classes, of major 49, by finding the types.
const METHODS: &str = "
    // returns fit the descriptor
    1 0 | static ()I | | 03 ac | yes
    1 0 | static ()Z | | 03 ac | yes
    1 0 | static ()V | | 03 ac | no
    1 0 | static ()J | | 03 ac | no
    2 0 | static ()J | | 09 ad | yes
    1 0 | static ()J | | 09 ad | no
    1 0 | static ()LT; | | 01 b0 | yes
    1 0 | static ()[[J | | 01 b0 | yes
    1 0 | static ()I | | 01 b0 | no
    0 0 | static ()V | | b1 | yes
    0 0 | static ()I | | b1 | no
    // the object and the parameters lie below max_locals; a long has two places
    0 0 | ()V | | b1 | no
    0 1 | ()V | | b1 | yes
    0 1 | static (II)V | | b1 | no
    0 2 | static (J)V | | b1 | yes
    0 1 | static (J)V | | b1 | no
    1 5 | (JI[J)V | | 1d 57 b1 | yes
    1 5 | (JI[J)V | | 19 04 57 b1 | yes
    2 5 | (JI[J)V | | 1f 58 b1 | yes
    1 5 | (JI[J)V | | 1c 57 b1 | no
    1 2 | (LT;)V | | 2b 57 b1 | yes
    1 2 | static (BZ)V | | 1b 57 b1 | yes
    1 3 | static ([[LT;CS)V | | 1c 57 b1 | yes
    // the code's end is never next
    0 0 | static ()V | | 00 | no
    1 0 | static ()V | | 03 57 | no
    0 0 | static ()V | | a7 00 00 | yes
    1 1 | static (I)V | | 1a 99 00 03 b1 | yes
    1 1 | static (I)V | | b1 1a 99 ff fe | yes
    // half of a long that was overwritten
    1 2 | static (J)V | | 03 3c b1 | yes
    2 2 | static (J)V | | 03 3c 1e 58 b1 | no
    2 2 | static (J)V | | 03 3b 1e 58 b1 | no
    1 2 | static (J)V | | 03 3b 1b 57 b1 | no
    2 2 | static (II)V | | 09 3f 1b 57 b1 | no
    2 2 | static (II)V | | 09 3f 1e 58 b1 | yes
    2 3 | static (IJ)V | | 09 3f 1f 58 b1 | no
    2 3 | static (IJ)V | | 09 3f 1e 58 b1 | yes
    2 2 | static (I)V | | 09 40 b1 | no
    2 3 | static (I)V | | 09 40 1a 57 1f 58 b1 | yes
    // a join of an int and a reference, used or not
    1 2 | static (I)V | | 1a 99 00 08 03 3c a7 00 05 01 4c b1 | yes
    1 2 | static (I)V | | 1a 99 00 08 03 3c a7 00 05 01 4c 1b 57 b1 | no
    1 2 | static (I)V | | 1a 99 00 08 03 3c a7 00 05 01 4c 2b 57 b1 | no
    1 2 | static (I)V | | 1a 99 00 08 03 3c a7 00 05 03 3c 1b 57 b1 | yes
    1 2 | static (I)V | | 1a 99 00 08 03 3c a7 00 05 00 00 1b 57 b1 | no
    // stacks at a join
    1 1 | static (I)V | | 1a 99 00 07 03 a7 00 04 01 57 b1 | no
    1 1 | static (I)V | | 1a 99 00 07 03 a7 00 04 04 57 b1 | yes
    2 1 | static (I)V | | 1a 99 00 08 03 03 a7 00 04 04 57 b1 | no
    2 1 | static (I)V | | 1a 99 00 07 09 a7 00 05 04 04 58 b1 | no
    // a loop whose head knows less in the end
    1 2 | static (II)V | | 1a 99 00 09 01 4c a7 ff fa 00 b1 | yes
    1 2 | static (II)V | | 1b 57 1a 99 00 09 01 4c a7 ff f8 00 b1 | no
    1 1 | static (I)V | | 01 4b a7 ff fe | yes
    1 1 | static (I)V | | 1a 57 01 4b a7 ff fc | no
    2 1 | static (I)V | | 03 1a 99 ff fe b1 | no
    // a handler has the locals before the instruction, and what was thrown alone on the stack
    1 1 | static ()V | 0 2 3 | 03 3b b1 57 b1 | yes
    1 1 | static ()V | 1 2 3 | 03 3b b1 57 1a 57 b1 | no
    1 1 | static ()V | 2 3 3 | 03 3b b1 57 1a 57 b1 | yes
    1 1 | static ()V | 0 3 3 | 03 3b b1 57 1a 57 b1 | no
    2 1 | static ()V | 1 2 4 | 03 04 58 b1 57 b1 | yes
    1 0 | static ()V | 0 1 1 | b1 bf | yes
    0 0 | static ()V | 0 1 1 | b1 bf | no
    2 0 | static ()V | 0 1 1 | b1 60 57 b1 | no
    1 1 | static ()V | 0 1 1 | b1 4b b1 | yes
    1 0 | static ()V | 0 1 2, 0 1 3 | b1 00 bf bf | yes
    1 0 | static ()V | 0 1 2, 0 1 3 | b1 00 bf 57 | no
    // code that no frame comes to
    0 0 | static ()V | | b1 60 b1 | yes
    0 0 | static ()V | | b1 00 | yes
    1 0 | static ()V | 1 2 3 | b1 00 b1 60 b1 | yes
    1 0 | static ()V | | 01 bf 57 57 b1 | yes
    // max_stack is asked of words
    4 0 | static ()V | | 09 09 61 58 b1 | yes
    3 0 | static ()V | | 09 09 61 58 b1 | no
    1 0 | static ()V | | 03 04 58 b1 | no
    // moves of words, which never part a long
    4 0 | static ()V | | 09 5c 58 58 b1 | yes
    4 0 | static ()V | | 03 04 5c 58 58 b1 | yes
    4 0 | static ()V | | 09 59 58 58 b1 | no
    2 0 | static ()V | | 09 57 57 b1 | no
    2 0 | static ()V | | 03 58 b1 | no
    2 0 | static ()V | | 03 59 58 b1 | yes
    3 0 | static ()V | | 03 01 5a 57 57 57 b1 | yes
    4 0 | static ()V | | 09 03 5a 57 57 57 b1 | no
    4 0 | static ()V | | 09 03 5b 60 b1 | no
    4 0 | static ()V | | 09 03 5b 57 58 57 b1 | yes
    4 0 | static ()V | | 03 04 01 5b 57 60 57 57 b1 | yes
    5 0 | static ()V | | 01 09 5d 58 57 58 b1 | yes
    5 0 | static ()V | | 01 03 04 5d 58 57 60 57 b1 | yes
    6 0 | static ()V | | 09 09 5e 58 58 58 b1 | yes
    6 0 | static ()V | | 09 03 04 5e 60 57 58 60 57 b1 | yes
    6 0 | static ()V | | 09 03 09 5e 58 58 58 b1 | no
    6 0 | static ()V | | 03 09 04 5d 58 58 58 b1 | no
    2 0 | static ()V | | 01 03 5f 57 57 b1 | yes
    2 0 | static ()V | | 01 03 5f b0 | no
    3 0 | static ()V | | 09 03 5f 57 58 b1 | no
    2 0 | static ()V | | 03 5f 57 b1 | no
    // constants
    1 0 | static ()I | | 12 01 ac | yes
    2 0 | static ()J | | 14 00 02 ad | yes
    1 0 | static ()Ljava/lang/String; | | 12 04 b0 | yes
    1 0 | static ()I | | 13 00 04 ac | no
    1 0 | static ()I | | 10 ff ac | yes
    1 0 | static ()I | | 11 00 ff ac | yes
    // locals
    1 2 | static (II)V | | c4 15 00 01 57 b1 | yes
    1 2 | static (II)V | | c4 15 00 02 57 b1 | no
    0 1 | static (I)V | | 84 00 01 b1 | yes
    0 2 | static (J)V | | 84 00 01 b1 | no
    0 1 | ()V | | 84 00 01 b1 | no
    0 1 | static (I)V | | c4 84 00 01 00 01 b1 | no
    1 1 | static ()V | | 1a 57 b1 | no
    1 2 | static ()V | | 03 36 01 15 01 57 b1 | yes
    1 1 | static ()V | | 03 36 01 b1 | no
    1 1 | static ()V | | 01 3b b1 | no
    1 1 | static (LT;)V | | 2a 4b b1 | yes
    2 2 | static (J)J | | 1e ad | yes
    // numbers
    2 0 | static ()I | | 03 04 60 ac | yes
    2 0 | static ()I | | 01 04 60 ac | no
    1 0 | static ()I | | 03 74 ac | yes
    2 0 | static ()J | | 09 75 ad | yes
    4 0 | static ()J | | 09 0a 6d ad | yes
    4 0 | static ()J | | 03 0a 6d ad | no
    3 0 | static ()J | | 09 03 79 ad | yes
    4 0 | static ()J | | 09 09 79 ad | no
    2 0 | static ()I | | 03 04 7c ac | yes
    4 0 | static ()J | | 09 0a 83 ad | yes
    2 0 | static ()I | | 03 04 7e ac | yes
    2 0 | static ()J | | 03 85 ad | yes
    2 0 | static ()I | | 09 88 ac | yes
    1 0 | static ()I | | 03 91 92 93 ac | yes
    4 0 | static ()I | | 09 0a 94 ac | yes
    // jumps
    2 2 | static (II)V | | 1a 1b a1 00 03 b1 | yes
    2 2 | static (ILT;)V | | 1a 2b a1 00 03 b1 | no
    2 0 | static ()V | | 01 01 a5 00 03 b1 | yes
    2 0 | static ()V | | 01 03 a5 00 03 b1 | no
    1 0 | static ()V | | 01 c6 00 03 b1 | yes
    1 0 | static ()V | | 03 c7 00 03 b1 | no
    0 0 | static ()V | | c8 00 00 00 05 b1 | yes
    1 1 | static (I)V | | 1a aa 00 00 00 00 00 13 00 00 00 00 00 00 00 00 00 00 00 13 b1 | yes
    1 1 | static (LT;)V | | 2a aa 00 00 00 00 00 13 00 00 00 00 00 00 00 00 00 00 00 13 b1 | no
    1 1 | static (I)V | | 1a ab 00 00 00 00 00 13 00 00 00 01 00 00 00 07 00 00 00 14 b1 57 b1 | no
    1 1 | static (I)V | | 1a ab 00 00 00 00 00 13 00 00 00 01 00 00 00 07 00 00 00 14 b1 b1 | yes
    // fields
    1 0 | static ()I | | b2 00 0a ac | yes
    2 0 | static ()J | | b2 00 0d ad | yes
    1 0 | static ()J | | b2 00 0d ad | no
    1 0 | static ()[D | | b2 00 10 b0 | yes
    2 0 | static ()V | | 09 b3 00 0d b1 | yes
    2 0 | static ()V | | 03 b3 00 0d b1 | no
    1 1 | ()I | | 2a b4 00 0a ac | yes
    1 2 | (I)I | | 1b b4 00 0a ac | no
    2 2 | (I)V | | 2a 1b b5 00 0a b1 | yes
    3 1 | ()V | | 2a 09 b5 00 0d b1 | yes
    2 1 | ()V | | 2a 03 b5 00 0d b1 | no
    2 1 | ()V | | 03 2a b5 00 0a b1 | no
    // calls
    5 0 | static ()J | | 03 09 01 01 b8 00 13 ad | yes
    4 0 | static ()J | | 03 09 01 01 b8 00 13 ad | no
    5 0 | static ()J | | 09 03 01 01 b8 00 13 ad | no
    6 0 | static ()J | | 01 03 09 01 01 b6 00 13 ad | yes
    6 0 | static ()J | | 03 03 09 01 01 b6 00 13 ad | no
    5 0 | static ()J | | 03 09 01 01 b6 00 13 ad | no
    6 0 | static ()J | | 01 03 09 01 01 b9 00 14 06 00 ad | yes
    1 0 | static ()V | | 01 b6 00 17 b1 | yes
    0 0 | static ()V | | b8 00 17 b1 | yes
    1 0 | static ()V | | 01 b6 00 17 57 b1 | no
    // arrays and objects
    1 0 | static ()[I | | 03 bc 0a b0 | yes
    1 0 | static ()[I | | 01 bc 0a b0 | no
    1 0 | static ()[LT; | | 03 bd 00 06 b0 | yes
    2 0 | static ()I | | 03 bc 0a 03 2e ac | yes
    2 0 | static ()I | | 01 09 2e ac | no
    2 0 | static ()J | | 01 03 2f ad | yes
    2 0 | static ()LT; | | 01 03 32 b0 | yes
    2 0 | static ()I | | 01 03 33 ac | yes
    2 0 | static ()I | | 01 03 34 ac | yes
    2 0 | static ()I | | 01 03 35 ac | yes
    3 0 | static ()V | | 01 03 04 4f b1 | yes
    4 0 | static ()V | | 01 03 09 50 b1 | yes
    3 0 | static ()V | | 01 03 04 50 b1 | no
    3 0 | static ()V | | 01 03 01 53 b1 | yes
    3 0 | static ()V | | 01 03 04 54 b1 | yes
    3 0 | static ()V | | 01 03 04 55 b1 | yes
    3 0 | static ()V | | 01 03 04 56 b1 | yes
    1 0 | static ()I | | 01 be ac | yes
    1 0 | static ()V | | bb 00 06 57 b1 | yes
    1 0 | static ()LT; | | 01 c0 00 06 b0 | yes
    1 0 | static ()I | | 01 c1 00 06 ac | yes
    1 0 | static ()I | | 03 c1 00 06 ac | no
    1 0 | static ()V | | 01 bf | yes
    1 0 | static ()V | | 03 bf | no
    // an instruction that finds nothing on the stack
    2 0 | static ()V | | 60 b1 | no
    2 0 | static ()V | | 00 00 62 b1 | no
    // a long of which one way to a join overwrote a half, or none
    2 3 | static (IJ)V | | 1a 99 00 05 03 3c b1 | yes
    2 3 | static (IJ)V | | 1a 99 00 05 03 3c 1f 58 b1 | no
    2 3 | static (IJ)V | | 1a 99 00 05 03 3d 1f 58 b1 | no
    2 3 | static (IJ)V | | 1a 99 00 05 01 4d 1f 58 b1 | no
    2 3 | static (IJ)V | | 1a 99 00 05 09 40 1f 58 b1 | yes
    2 4 | static (IJ)V | | 1a 99 00 05 09 41 1f 58 b1 | no
    2 4 | static (IJ)V | | 1a 99 00 05 03 3e 1f 58 b1 | yes
    // the second place of a long is no value
    2 4 | static (IJ)V | | 20 58 b1 | no
    1 3 | static (IJ)V | | 1c 57 b1 | no
    1 3 | static (IJ)V | | 84 02 01 b1 | no
    1 4 | static (IJI)V | | 1d 57 b1 | yes
    1 4 | static (IJI)V | | 1c 57 b1 | no
    // a handler of a store, before and behind it; of its own range; with another way to it
    1 1 | static (I)V | 2 4 6 | 01 57 01 4b 00 b1 57 1a 57 b1 | yes
    1 1 | static (I)V | 2 5 6 | 01 57 01 4b 00 b1 57 1a 57 b1 | no
    1 1 | static (I)V | 2 4 6 | 01 57 01 4b 00 b1 57 2a 57 b1 | no
    1 1 | static (I)V | 4 5 6 | 01 57 01 4b 00 b1 57 2a 57 b1 | yes
    1 0 | static ()V | 0 2 1 | 01 bf | yes
    2 0 | static ()V | 0 3 2 | 03 57 57 b1 | no
    1 0 | static ()V | 0 1 2 | 01 00 57 b1 | yes
    1 0 | static ()V | 0 1 2 | 03 00 57 b1 | no
    // the stack at a way back
    2 1 | static (I)V | | 03 1a 99 ff ff b1 | yes
    2 1 | static (I)V | | 03 1a 99 ff fe b1 | no
    2 0 | static ()V | | 03 59 9a ff ff 57 b1 | yes
    3 1 | static (I)V | | 03 1a 99 ff ff 57 03 03 a7 ff f9 | no
    // code that no frame comes to may end behind the last instruction
    1 0 | static ()V | | b1 03 | yes
    0 0 | static ()V | | a7 00 04 57 b1 | yes
    // what a return leaves on the stack
    3 0 | static ()I | | 01 09 58 03 ac | yes
    2 0 | static ()I | | 01 03 ac | yes
    3 0 | static ()V | | 09 03 b1 | yes
    // many values on the stack
    1100 0 | static ()V | | 03*1100 57*1100 b1 | yes
    1099 0 | static ()V | | 03*1100 57*1100 b1 | no
    1100 0 | static ()V | | 03*1100 57*1101 b1 | no
    1024 0 | static ()V | | 03*1024 57*510 5e 57*516 b1 | yes
    1024 0 | static ()V | | 03*1024 57*510 5e 57*517 b1 | no
    1025 0 | static ()LT; | | 01 03*1024 57*1024 b0 | yes
    1024 1 | static (I)V | | 03*1023 1a 99 04 03 57*512 03*512 57*1023 b1 | yes
    1024 1 | static (I)V | | 03*1023 1a 99 04 03 57*512 01 03*511 57*1023 b1 | no
";

#[test]
fn methods_have_shapes_or_not(rt: HostRuntime) -> Result<(), Fail> {
    signatures();
    for row in METHODS.lines().filter(|line| is_row(line)) {
        let class = class_of(&rt, row);
        let method = method_of(&rt, row);
        let word = match check_shapes(rt.alloc(), &class, &method) {
            Ok(_) => "yes",
            Err(ShapeFault::BadCode) => "no",
            Err(ShapeFault::NoMemory) => "no memory",
        };
        assert_eq!(rt; word, cell(row, 4), "{row}");
    }
    Ok(())
}
