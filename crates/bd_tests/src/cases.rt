// Class files, and the facts of their methods: what `javap -c -v` shows of each instruction and each row of the
// exception table, by the tables of the JVM Specification SE 8, 6.5.

// What `javac --release 8 -g:none` of JDK 17 wrote of this source.
//     import java.io.Serializable;
//     abstract class F {
//       int n; static long total; double[] weights; static String text; F next;
//       static int objects(int a, int b) { F f = new G(); f.n = a / b; return f.next.n; }
//       static Object constants() { Object o = "short"; if (o == null) o = F.class; if (o == null) o =
//           int[].class; if (o == null) o = F[][].class; return o; }
//       static Object arrays(Object o, int n) { Object[] os = new F[n]; int[][] is = new int[n][]; is[0] = new
//           int[n]; os[1] = new String[n][]; os[2] = new long[2][3]; os[3] = new F[2][3]; return os[(int)
//           is[0][1]]; }
//       static boolean tests(Object o) { return o instanceof F ? ((F) o).n > 0 : o instanceof int[] || ((String[])
//           o).length % 3L == 1L; }
//       int calls(Runnable r, Comparable<F> c, int[] ints) { r.run(); c.compareTo(this); abstracted();
//           super.hashCode(); ints.clone(); return I.make(total); }
//       abstract void abstracted();
//       static void handlers(int a) { try { if (a == 1) throw new IllegalStateException("one"); } catch
//           (IllegalStateException | ArithmeticException e) { text = null; } finally { total++; } }
//       static float real(float x, double[] y) { return x + 1.5f; }
//       static double reals(F f) { double d = f.weights[0]; d = -d * 2.0 + 7.0; float[] fs = new float[2]; fs[0] =
//           (float) d; real(fs[0], f.weights); long l = (long) d; return d > l ? d : 0.0; }
//       static Object synchronised(Object o) { synchronized (o) { Runnable r = () -> {}; return r; } }
//       static int plain(int FD) { int i = 0; while (i < FD) i += 2; return i << 3; }
//       static void named(DF LF, Float[][] boxed) { }
//       static long shifts(long a, int b) { switch (b) { case 1: return a % b; case 7: return a >> b; default:
//           return -a; } }
//       native int outside();
//     }
//     class DF { }
//     class G extends F { void abstracted() { } }
//     interface I { static int make(long l) { return (int) l; } }
#[rattlefmt::skip]
pub(crate) const COMPILED: &str = "
    cafebabe00000034008f0a000200030700040c000500060100106a6176612f6c616e672f4f626a6563740100063c696e69743e0100032829
    56070008010001470a0007000309000b000c07000d0c000e000f010001460100016e0100014909000b00110c001200130100046e65787401
    00034c463b08001501000573686f72740700170100025b490700190100055b5b4c463b07001b0100135b4c6a6176612f6c616e672f537472
    696e673b07001d0100035b5b4a0500000000000000030b002100220700230c002400060100126a6176612f6c616e672f52756e6e61626c65
    01000372756e0b002600270700280c0029002a0100146a6176612f6c616e672f436f6d70617261626c65010009636f6d70617265546f0100
    15284c6a6176612f6c616e672f4f626a6563743b29490a000b002c0c002d000601000a616273747261637465640a0002002f0c0030003101
    000868617368436f64650100032829490a001600330c00340035010005636c6f6e6501001428294c6a6176612f6c616e672f4f626a656374
    3b09000b00370c00380039010005746f74616c0100014a0b003b003c07000f0c003d003e0100046d616b65010004284a294907004001001f
    6a6176612f6c616e672f496c6c6567616c5374617465457863657074696f6e0800420100036f6e650a003f00440c00050045010015284c6a
    6176612f6c616e672f537472696e673b295607004701001d6a6176612f6c616e672f41726974686d65746963457863657074696f6e09000b
    00490c004a004b010004746578740100124c6a6176612f6c616e672f537472696e673b043fc0000009000b004e0c004f0050010007776569
    676874730100025b4406400000000000000006401c0000000000000a000b00560c005700580100047265616c01000628465b442946120000
    005a0c0024005b01001628294c6a6176612f6c616e672f52756e6e61626c653b010004436f64650100076f626a6563747301000528494929
    49010009636f6e7374616e747301000d537461636b4d61705461626c65010006617272617973010027284c6a6176612f6c616e672f4f626a
    6563743b49294c6a6176612f6c616e672f4f626a6563743b0100057465737473010015284c6a6176612f6c616e672f4f626a6563743b295a
    01000563616c6c7301002f284c6a6176612f6c616e672f52756e6e61626c653b4c6a6176612f6c616e672f436f6d70617261626c653b5b49
    29490100095369676e6174757265010034284c6a6176612f6c616e672f52756e6e61626c653b4c6a6176612f6c616e672f436f6d70617261
    626c653c4c463b3e3b5b49294901000868616e646c6572730100042849295607006c01001a6a6176612f6c616e672f52756e74696d654578
    63657074696f6e07006e0100136a6176612f6c616e672f5468726f7761626c650100057265616c73010006284c463b29440700720100025b
    4601000c73796e6368726f6e69736564010026284c6a6176612f6c616e672f4f626a6563743b294c6a6176612f6c616e672f4f626a656374
    3b010005706c61696e010004284929490100056e616d656401001a284c44463b5b5b4c6a6176612f6c616e672f466c6f61743b2956010006
    736869667473010005284a49294a0100076f7574736964650100156c616d6264612473796e6368726f6e697365642430010010426f6f7473
    747261704d6574686f64730f06007f0a008000810700820c008300840100226a6176612f6c616e672f696e766f6b652f4c616d6264614d65
    7461666163746f727901000b6d657461666163746f72790100cc284c6a6176612f6c616e672f696e766f6b652f4d6574686f6448616e646c
    6573244c6f6f6b75703b4c6a6176612f6c616e672f537472696e673b4c6a6176612f6c616e672f696e766f6b652f4d6574686f6454797065
    3b4c6a6176612f6c616e672f696e766f6b652f4d6574686f64547970653b4c6a6176612f6c616e672f696e766f6b652f4d6574686f644861
    6e646c653b4c6a6176612f6c616e672f696e766f6b652f4d6574686f64547970653b294c6a6176612f6c616e672f696e766f6b652f43616c
    6c536974653b1000060f0600870a000b00880c007c000601000c496e6e6572436c617373657307008b0100256a6176612f6c616e672f696e
    766f6b652f4d6574686f6448616e646c6573244c6f6f6b757007008d01001e6a6176612f6c616e672f696e766f6b652f4d6574686f644861
    6e646c65730100064c6f6f6b75700420000b0002000000050000000e000f000000080038003900000000004f005000000008004a004b0000
    000000120013000000100000000500060001005c0000001100010001000000052ab70001b1000000000008005d005e0001005c0000002300
    03000300000017bb000759b700094d2c1a1b6cb5000a2cb40010b4000aac000000000008005f00350001005c00000036000100010000001a
    12144b2ac70006120b4b2ac7000612164b2ac7000612184b2ab00000000100600000000a0003fc000a07000206060008006100620001005c
    0000003d00040004000000311bbd000b4d1bbd00164e2d031bbc0a532c041bbd001a532c050506c5001c02532c060506c5001802532c2d03
    32042e32b0000000000008006300640001005c0000004f00040001000000352ac1000b9900152ac0000bb4000a9e000704a7002203a7001e
    2ac100169a00122ac0001abe8514001e710a949a000704a7000403ac0000000100600000000800051503150340010000006500660002005c
    0000002f00020004000000232bb9002001002c2ab900250200572ab6002b2ab7002e572db6003257b20036b8003aac000000000067000000
    0200680400002d0006000000080069006a0001005c0000007400040003000000361a04a0000dbb003f591241b70043bfb200360a61b30036
    a7001e4c01b30048b200360a61b30036a7000e4db200360a61b300362cbfb100040000000f001a003f0000000f001a00460000000f002a00
    00001a001f002a0000000100600000000c00040f4a07006b4f07006d0a0008005700580001005c00000011000200020000000522124c62ae
    000000000008006f00700001005c0000005600040006000000382ab4004d03314827771400516b140053634805bc064e2d032790512d0330
    2ab4004db8005557278f37042716048a979e000727a700040eaf0000000100600000000c0002fe0036030700710440030008007300740001
    005c0000004700020004000000132a594cc2ba005900004d2c2bc3b04e2bc32dbf00020004000d000e0000000e0011000e00000001006000
    0000120001ff000e0002070002070002000107006d0008007500760001005c0000002a0002000200000011033c1b1aa20009840102a7fff8
    1b0678ac000000010060000000070002fc0002010a0008007700780001005c0000000d0000000200000001b10000000000080079007a0001
    005c0000003f00040003000000281cab00000000002400000002000000010000001b00000007000000201e1c8571ad1e1c7bad1e75ad0000
    000100600000000500031c04030100007b00310000100a007c00060001005c0000000d0000000000000001b1000000000002007d0000000c
    0001007e000300850086008500890000000a0001008a008c008e0019
";

// A method, and its facts in order.
#[rattlefmt::skip]
pub(crate) const COMPILED_FACTS: &str = "
    method <init>:()V
    names java/lang/Object
    special 1 java/lang/Object.<init>:()V false
    raises java/lang/NullPointerException
    method objects:(II)I
    names G
    new 0 G
    init G
    names G
    special 4 G.<init>:()V false
    raises java/lang/NullPointerException
    raises java/lang/ArithmeticException
    names F
    reads 12 F.n:I Put
    raises java/lang/NullPointerException
    names F
    reads 16 F.next:LF; Get
    raises java/lang/NullPointerException
    names F
    reads 19 F.n:I Get
    raises java/lang/NullPointerException
    method constants:()Ljava/lang/Object;
    literal java/lang/String
    names F
    literal java/lang/Class
    literal java/lang/Class
    names F
    literal java/lang/Class
    method arrays:(Ljava/lang/Object;I)Ljava/lang/Object;
    names F
    raises java/lang/NegativeArraySizeException
    raises java/lang/NegativeArraySizeException
    raises java/lang/NegativeArraySizeException
    raises java/lang/NullPointerException
    raises java/lang/ArrayIndexOutOfBoundsException
    raises java/lang/ArrayStoreException
    names java/lang/String
    raises java/lang/NegativeArraySizeException
    raises java/lang/NullPointerException
    raises java/lang/ArrayIndexOutOfBoundsException
    raises java/lang/ArrayStoreException
    refuse 27 Opcode(197)
    raises java/lang/NullPointerException
    raises java/lang/ArrayIndexOutOfBoundsException
    raises java/lang/ArrayStoreException
    names F
    refuse 36 Opcode(197)
    raises java/lang/NullPointerException
    raises java/lang/ArrayIndexOutOfBoundsException
    raises java/lang/ArrayStoreException
    raises java/lang/NullPointerException
    raises java/lang/ArrayIndexOutOfBoundsException
    raises java/lang/NullPointerException
    raises java/lang/ArrayIndexOutOfBoundsException
    raises java/lang/NullPointerException
    raises java/lang/ArrayIndexOutOfBoundsException
    method tests:(Ljava/lang/Object;)Z
    names F
    names F
    raises java/lang/ClassCastException
    names F
    reads 11 F.n:I Get
    raises java/lang/NullPointerException
    names java/lang/String
    raises java/lang/ClassCastException
    raises java/lang/NullPointerException
    raises java/lang/ArithmeticException
    method calls:(Ljava/lang/Runnable;Ljava/lang/Comparable;[I)I
    names java/lang/Runnable
    virtual 1 java/lang/Runnable.run:()V true
    raises java/lang/NullPointerException
    names java/lang/Comparable
    virtual 8 java/lang/Comparable.compareTo:(Ljava/lang/Object;)I true
    raises java/lang/NullPointerException
    names F
    virtual 15 F.abstracted:()V false
    raises java/lang/NullPointerException
    names java/lang/Object
    special 19 java/lang/Object.hashCode:()I false
    raises java/lang/NullPointerException
    virtual 24 [I.clone:()Ljava/lang/Object; false
    raises java/lang/NullPointerException
    names F
    reads 28 F.total:J GetStatic
    names I
    static 31 I.make:(J)I true
    method abstracted:()V
    method handlers:(I)V
    names java/lang/IllegalStateException
    new 5 java/lang/IllegalStateException
    init java/lang/IllegalStateException
    literal java/lang/String
    names java/lang/IllegalStateException
    special 11 java/lang/IllegalStateException.<init>:(Ljava/lang/String;)V false
    raises java/lang/NullPointerException
    raises java/lang/NullPointerException
    names F
    reads 15 F.total:J GetStatic
    names F
    reads 20 F.total:J PutStatic
    names F
    reads 28 F.text:Ljava/lang/String; PutStatic
    names F
    reads 31 F.total:J GetStatic
    names F
    reads 36 F.total:J PutStatic
    names F
    reads 43 F.total:J GetStatic
    names F
    reads 48 F.total:J PutStatic
    raises java/lang/NullPointerException
    names java/lang/IllegalStateException
    names java/lang/ArithmeticException
    method real:(F[D)F
    refuse 0 Float
    refuse 0 Opcode(34)
    refuse 1 Constant
    refuse 3 Opcode(98)
    refuse 4 Opcode(174)
    method reals:(LF;)D
    refuse 0 Float
    names F
    reads 1 F.weights:[D Get
    refuse 1 Float
    raises java/lang/NullPointerException
    refuse 5 Opcode(49)
    refuse 6 Opcode(72)
    refuse 7 Opcode(39)
    refuse 8 Opcode(119)
    refuse 9 Constant
    refuse 12 Opcode(107)
    refuse 13 Constant
    refuse 16 Opcode(99)
    refuse 17 Opcode(72)
    refuse 19 Float
    raises java/lang/NegativeArraySizeException
    refuse 24 Opcode(39)
    refuse 25 Opcode(144)
    refuse 26 Opcode(81)
    refuse 29 Opcode(48)
    names F
    reads 31 F.weights:[D Get
    refuse 31 Float
    raises java/lang/NullPointerException
    names F
    static 34 F.real:(F[D)F false
    refuse 34 Float
    refuse 38 Opcode(39)
    refuse 39 Opcode(143)
    refuse 42 Opcode(39)
    refuse 45 Opcode(138)
    refuse 46 Opcode(151)
    refuse 50 Opcode(39)
    refuse 54 Opcode(14)
    refuse 55 Opcode(175)
    method synchronised:(Ljava/lang/Object;)Ljava/lang/Object;
    refuse 3 Opcode(194)
    refuse 4 Opcode(186)
    refuse 12 Opcode(195)
    refuse 16 Opcode(195)
    raises java/lang/NullPointerException
    method plain:(I)I
    method named:(LDF;[[Ljava/lang/Float;)V
    method shifts:(JI)J
    raises java/lang/ArithmeticException
    method outside:()I
    method lambda$synchronised$0:()V
";

// A class put together by hand. Its method `all` has each opcode to 201 but `wide` in order, and then each form behind
// `wide`; `constants` pushes each kind of constant and makes an array of each primitive type, under rows with a catch
// type and without; `references` calls a method that gives an array of doubles, and a method of an interface.
#[rattlefmt::skip]
pub(crate) const ASSEMBLED: &str = "
    cafebabe0000003400300100014f0700010100106a6176612f6c616e672f4f626a65637407000301000173080005043f8000000100014307
    00080100055b5b4c433b07000a0100025b4907000c010001660100044c46443b0c000e000f09000900100100016d010007284c44463b2956
    0c001200130a000900140100016d01000528295b5b440c001600170a0009001801000169010004284929560c001a001b0b0009001c0f0600
    1501000328295610001f0100016c0100032829560c002100221200000023063ff00000000000000500000000000000010300000007010004
    436f6465010003616c6c010007284c463b442956010009636f6e7374616e747301000328295601000a7265666572656e6365730021000200
    040000000000030009002b002c0001002a00000185000a000a00000179000102030405060708090a0b0c0d0e0f1005110005120613000614
    0027150116011701180119011a1b1c1d1e1f202122232425262728292a2b2c2d2e2f30313233343536013701380139013a013b3c3d3e3f40
    4142434445464748494a4b4c4d4e4f505152535455565758595a5b5c5d5e5f606162636465666768696a6b6c6d6e6f707172737475767778
    797a7b7c7d7e7f8081828384010185868788898a8b8c8d8e8f9091929394959697989900009a00009b00009c00009d00009e00009f0000a0
    0000a10000a20000a30000a40000a50000a60000a70000a80000a901aa00000000000000000000000000000000ab00000000000000000000
    00acadaeafb0b1b20011b30011b40011b50011b60015b70015b80015b9001d0100ba00240000bb0009bc0abd000bbebfc0000bc1000dc2c3
    c5000b02c60000c70000c800000000c900000000c4150100c4160100c4170100c4180100c4190100c4360100c4370100c4380100c4390100
    c43a0100c4a90100c48401000100000000000009002d002e0001002a0000005e000a000a0000003a12061300061209130009120b13000b12
    07130007121e13001e12201300201229130029140025140027bc04bc05bc06bc07bc08bc09bc0abc0bb10003000000020002000900000002
    00000000000200050000000400000009002f002e0001002a0000001c000a000a00000010b60019b70019b80019b7001db8001db100000000
    0000
";

// A method, and its facts in order.
#[rattlefmt::skip]
pub(crate) const ASSEMBLED_FACTS: &str = "
    method all:(LF;D)V
    refuse 0 Float
    refuse 11 Opcode(11)
    refuse 12 Opcode(12)
    refuse 13 Opcode(13)
    refuse 14 Opcode(14)
    refuse 15 Opcode(15)
    literal java/lang/String
    literal java/lang/String
    refuse 33 Opcode(23)
    refuse 35 Opcode(24)
    refuse 47 Opcode(34)
    refuse 48 Opcode(35)
    refuse 49 Opcode(36)
    refuse 50 Opcode(37)
    refuse 51 Opcode(38)
    refuse 52 Opcode(39)
    refuse 53 Opcode(40)
    refuse 54 Opcode(41)
    raises java/lang/NullPointerException
    raises java/lang/ArrayIndexOutOfBoundsException
    raises java/lang/NullPointerException
    raises java/lang/ArrayIndexOutOfBoundsException
    refuse 61 Opcode(48)
    refuse 62 Opcode(49)
    raises java/lang/NullPointerException
    raises java/lang/ArrayIndexOutOfBoundsException
    raises java/lang/NullPointerException
    raises java/lang/ArrayIndexOutOfBoundsException
    raises java/lang/NullPointerException
    raises java/lang/ArrayIndexOutOfBoundsException
    raises java/lang/NullPointerException
    raises java/lang/ArrayIndexOutOfBoundsException
    refuse 71 Opcode(56)
    refuse 73 Opcode(57)
    refuse 85 Opcode(67)
    refuse 86 Opcode(68)
    refuse 87 Opcode(69)
    refuse 88 Opcode(70)
    refuse 89 Opcode(71)
    refuse 90 Opcode(72)
    refuse 91 Opcode(73)
    refuse 92 Opcode(74)
    raises java/lang/NullPointerException
    raises java/lang/ArrayIndexOutOfBoundsException
    raises java/lang/NullPointerException
    raises java/lang/ArrayIndexOutOfBoundsException
    refuse 99 Opcode(81)
    refuse 100 Opcode(82)
    raises java/lang/NullPointerException
    raises java/lang/ArrayIndexOutOfBoundsException
    raises java/lang/ArrayStoreException
    raises java/lang/NullPointerException
    raises java/lang/ArrayIndexOutOfBoundsException
    raises java/lang/NullPointerException
    raises java/lang/ArrayIndexOutOfBoundsException
    raises java/lang/NullPointerException
    raises java/lang/ArrayIndexOutOfBoundsException
    refuse 116 Opcode(98)
    refuse 117 Opcode(99)
    refuse 120 Opcode(102)
    refuse 121 Opcode(103)
    refuse 124 Opcode(106)
    refuse 125 Opcode(107)
    raises java/lang/ArithmeticException
    raises java/lang/ArithmeticException
    refuse 128 Opcode(110)
    refuse 129 Opcode(111)
    raises java/lang/ArithmeticException
    raises java/lang/ArithmeticException
    refuse 132 Opcode(114)
    refuse 133 Opcode(115)
    refuse 136 Opcode(118)
    refuse 137 Opcode(119)
    refuse 154 Opcode(134)
    refuse 155 Opcode(135)
    refuse 157 Opcode(137)
    refuse 158 Opcode(138)
    refuse 159 Opcode(139)
    refuse 160 Opcode(140)
    refuse 161 Opcode(141)
    refuse 162 Opcode(142)
    refuse 163 Opcode(143)
    refuse 164 Opcode(144)
    refuse 169 Opcode(149)
    refuse 170 Opcode(150)
    refuse 171 Opcode(151)
    refuse 172 Opcode(152)
    refuse 218 Opcode(168)
    refuse 221 Opcode(169)
    refuse 254 Opcode(174)
    refuse 255 Opcode(175)
    names C
    reads 258 C.f:LFD; GetStatic
    names C
    reads 261 C.f:LFD; PutStatic
    names C
    reads 264 C.f:LFD; Get
    raises java/lang/NullPointerException
    names C
    reads 267 C.f:LFD; Put
    raises java/lang/NullPointerException
    names C
    virtual 270 C.m:(LDF;)V false
    raises java/lang/NullPointerException
    names C
    special 273 C.m:(LDF;)V false
    raises java/lang/NullPointerException
    names C
    static 276 C.m:(LDF;)V false
    names C
    virtual 279 C.i:(I)V true
    raises java/lang/NullPointerException
    refuse 284 Opcode(186)
    names C
    new 289 C
    init C
    raises java/lang/NegativeArraySizeException
    names C
    raises java/lang/NegativeArraySizeException
    raises java/lang/NullPointerException
    raises java/lang/NullPointerException
    names C
    raises java/lang/ClassCastException
    refuse 305 Opcode(194)
    refuse 306 Opcode(195)
    names C
    refuse 307 Opcode(197)
    refuse 322 Opcode(201)
    refuse 335 Opcode(23)
    refuse 339 Opcode(24)
    refuse 355 Opcode(56)
    refuse 359 Opcode(57)
    refuse 367 Opcode(169)
    method constants:()V
    literal java/lang/String
    literal java/lang/String
    names C
    literal java/lang/Class
    names C
    literal java/lang/Class
    names C
    literal java/lang/Class
    names C
    literal java/lang/Class
    refuse 15 Constant
    refuse 17 Constant
    refuse 20 Constant
    refuse 22 Constant
    refuse 25 Constant
    refuse 27 Constant
    refuse 35 Constant
    raises java/lang/NegativeArraySizeException
    raises java/lang/NegativeArraySizeException
    refuse 45 Float
    raises java/lang/NegativeArraySizeException
    refuse 47 Float
    raises java/lang/NegativeArraySizeException
    raises java/lang/NegativeArraySizeException
    raises java/lang/NegativeArraySizeException
    raises java/lang/NegativeArraySizeException
    raises java/lang/NegativeArraySizeException
    names C
    names java/lang/Object
    method references:()V
    names C
    virtual 0 C.m:()[[D false
    refuse 0 Float
    raises java/lang/NullPointerException
    names C
    special 3 C.m:()[[D false
    refuse 3 Float
    raises java/lang/NullPointerException
    names C
    static 6 C.m:()[[D false
    refuse 6 Float
    names C
    special 9 C.i:(I)V true
    raises java/lang/NullPointerException
    names C
    static 12 C.i:(I)V true
";
