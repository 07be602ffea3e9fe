// What the JVM answers for the methods of java.lang.String. `java TextRows.java` writes this file.

/// A text, its length, and its units one by one.
pub(crate) const READ: &str = "
     | 0 |
    0061 | 1 | 0061
    0062 | 1 | 0062
    0061 0062 | 2 | 0061 0062
    0061 0062 0063 | 3 | 0061 0062 0063
    0061 0062 0063 0061 | 4 | 0061 0062 0063 0061
    0062 0063 0061 | 3 | 0062 0063 0061
    0000 | 1 | 0000
    0061 0062 0000 | 3 | 0061 0062 0000
    d83d de00 | 2 | d83d de00
    de00 | 1 | de00
    d83d | 1 | d83d
    ffff 0061 | 2 | ffff 0061
";

/// A text, two places, and the part between them.
pub(crate) const PARTS: &str = "
     | 0 | 0 |
    0061 | 0 | 0 |
    0061 | 0 | 1 | 0061
    0061 | 1 | 1 |
    0061 0062 0063 0061 | 0 | 0 |
    0061 0062 0063 0061 | 0 | 1 | 0061
    0061 0062 0063 0061 | 0 | 2 | 0061 0062
    0061 0062 0063 0061 | 0 | 3 | 0061 0062 0063
    0061 0062 0063 0061 | 0 | 4 | 0061 0062 0063 0061
    0061 0062 0063 0061 | 1 | 1 |
    0061 0062 0063 0061 | 1 | 2 | 0062
    0061 0062 0063 0061 | 1 | 3 | 0062 0063
    0061 0062 0063 0061 | 1 | 4 | 0062 0063 0061
    0061 0062 0063 0061 | 2 | 2 |
    0061 0062 0063 0061 | 2 | 3 | 0063
    0061 0062 0063 0061 | 2 | 4 | 0063 0061
    0061 0062 0063 0061 | 3 | 3 |
    0061 0062 0063 0061 | 3 | 4 | 0061
    0061 0062 0063 0061 | 4 | 4 |
    d83d de00 | 0 | 0 |
    d83d de00 | 0 | 1 | d83d
    d83d de00 | 0 | 2 | d83d de00
    d83d de00 | 1 | 1 |
    d83d de00 | 1 | 2 | de00
    d83d de00 | 2 | 2 |
";

/// Two texts; then the one behind the other, whether they are the same, whether the first starts and ends with the second,
/// and how they compare.
pub(crate) const PAIRS: &str = "
     |  |  | true | true | true | 0
     | 0061 | 0061 | false | false | false | -1
     | 0062 | 0062 | false | false | false | -1
     | 0061 0062 | 0061 0062 | false | false | false | -2
     | 0061 0062 0063 | 0061 0062 0063 | false | false | false | -3
     | 0061 0062 0063 0061 | 0061 0062 0063 0061 | false | false | false | -4
     | 0062 0063 0061 | 0062 0063 0061 | false | false | false | -3
     | 0000 | 0000 | false | false | false | -1
     | 0061 0062 0000 | 0061 0062 0000 | false | false | false | -3
     | d83d de00 | d83d de00 | false | false | false | -2
     | de00 | de00 | false | false | false | -1
     | d83d | d83d | false | false | false | -1
     | ffff 0061 | ffff 0061 | false | false | false | -2
    0061 |  | 0061 | false | true | true | 1
    0061 | 0061 | 0061 0061 | true | true | true | 0
    0061 | 0062 | 0061 0062 | false | false | false | -1
    0061 | 0061 0062 | 0061 0061 0062 | false | false | false | -1
    0061 | 0061 0062 0063 | 0061 0061 0062 0063 | false | false | false | -2
    0061 | 0061 0062 0063 0061 | 0061 0061 0062 0063 0061 | false | false | false | -3
    0061 | 0062 0063 0061 | 0061 0062 0063 0061 | false | false | false | -1
    0061 | 0000 | 0061 0000 | false | false | false | 97
    0061 | 0061 0062 0000 | 0061 0061 0062 0000 | false | false | false | -2
    0061 | d83d de00 | 0061 d83d de00 | false | false | false | -55260
    0061 | de00 | 0061 de00 | false | false | false | -56735
    0061 | d83d | 0061 d83d | false | false | false | -55260
    0061 | ffff 0061 | 0061 ffff 0061 | false | false | false | -65438
    0062 |  | 0062 | false | true | true | 1
    0062 | 0061 | 0062 0061 | false | false | false | 1
    0062 | 0062 | 0062 0062 | true | true | true | 0
    0062 | 0061 0062 | 0062 0061 0062 | false | false | false | 1
    0062 | 0061 0062 0063 | 0062 0061 0062 0063 | false | false | false | 1
    0062 | 0061 0062 0063 0061 | 0062 0061 0062 0063 0061 | false | false | false | 1
    0062 | 0062 0063 0061 | 0062 0062 0063 0061 | false | false | false | -2
    0062 | 0000 | 0062 0000 | false | false | false | 98
    0062 | 0061 0062 0000 | 0062 0061 0062 0000 | false | false | false | 1
    0062 | d83d de00 | 0062 d83d de00 | false | false | false | -55259
    0062 | de00 | 0062 de00 | false | false | false | -56734
    0062 | d83d | 0062 d83d | false | false | false | -55259
    0062 | ffff 0061 | 0062 ffff 0061 | false | false | false | -65437
    0061 0062 |  | 0061 0062 | false | true | true | 2
    0061 0062 | 0061 | 0061 0062 0061 | false | true | false | 1
    0061 0062 | 0062 | 0061 0062 0062 | false | false | true | -1
    0061 0062 | 0061 0062 | 0061 0062 0061 0062 | true | true | true | 0
    0061 0062 | 0061 0062 0063 | 0061 0062 0061 0062 0063 | false | false | false | -1
    0061 0062 | 0061 0062 0063 0061 | 0061 0062 0061 0062 0063 0061 | false | false | false | -2
    0061 0062 | 0062 0063 0061 | 0061 0062 0062 0063 0061 | false | false | false | -1
    0061 0062 | 0000 | 0061 0062 0000 | false | false | false | 97
    0061 0062 | 0061 0062 0000 | 0061 0062 0061 0062 0000 | false | false | false | -1
    0061 0062 | d83d de00 | 0061 0062 d83d de00 | false | false | false | -55260
    0061 0062 | de00 | 0061 0062 de00 | false | false | false | -56735
    0061 0062 | d83d | 0061 0062 d83d | false | false | false | -55260
    0061 0062 | ffff 0061 | 0061 0062 ffff 0061 | false | false | false | -65438
    0061 0062 0063 |  | 0061 0062 0063 | false | true | true | 3
    0061 0062 0063 | 0061 | 0061 0062 0063 0061 | false | true | false | 2
    0061 0062 0063 | 0062 | 0061 0062 0063 0062 | false | false | false | -1
    0061 0062 0063 | 0061 0062 | 0061 0062 0063 0061 0062 | false | true | false | 1
    0061 0062 0063 | 0061 0062 0063 | 0061 0062 0063 0061 0062 0063 | true | true | true | 0
    0061 0062 0063 | 0061 0062 0063 0061 | 0061 0062 0063 0061 0062 0063 0061 | false | false | false | -1
    0061 0062 0063 | 0062 0063 0061 | 0061 0062 0063 0062 0063 0061 | false | false | false | -1
    0061 0062 0063 | 0000 | 0061 0062 0063 0000 | false | false | false | 97
    0061 0062 0063 | 0061 0062 0000 | 0061 0062 0063 0061 0062 0000 | false | false | false | 99
    0061 0062 0063 | d83d de00 | 0061 0062 0063 d83d de00 | false | false | false | -55260
    0061 0062 0063 | de00 | 0061 0062 0063 de00 | false | false | false | -56735
    0061 0062 0063 | d83d | 0061 0062 0063 d83d | false | false | false | -55260
    0061 0062 0063 | ffff 0061 | 0061 0062 0063 ffff 0061 | false | false | false | -65438
    0061 0062 0063 0061 |  | 0061 0062 0063 0061 | false | true | true | 4
    0061 0062 0063 0061 | 0061 | 0061 0062 0063 0061 0061 | false | true | true | 3
    0061 0062 0063 0061 | 0062 | 0061 0062 0063 0061 0062 | false | false | false | -1
    0061 0062 0063 0061 | 0061 0062 | 0061 0062 0063 0061 0061 0062 | false | true | false | 2
    0061 0062 0063 0061 | 0061 0062 0063 | 0061 0062 0063 0061 0061 0062 0063 | false | true | false | 1
    0061 0062 0063 0061 | 0061 0062 0063 0061 | 0061 0062 0063 0061 0061 0062 0063 0061 | true | true | true | 0
    0061 0062 0063 0061 | 0062 0063 0061 | 0061 0062 0063 0061 0062 0063 0061 | false | false | true | -1
    0061 0062 0063 0061 | 0000 | 0061 0062 0063 0061 0000 | false | false | false | 97
    0061 0062 0063 0061 | 0061 0062 0000 | 0061 0062 0063 0061 0061 0062 0000 | false | false | false | 99
    0061 0062 0063 0061 | d83d de00 | 0061 0062 0063 0061 d83d de00 | false | false | false | -55260
    0061 0062 0063 0061 | de00 | 0061 0062 0063 0061 de00 | false | false | false | -56735
    0061 0062 0063 0061 | d83d | 0061 0062 0063 0061 d83d | false | false | false | -55260
    0061 0062 0063 0061 | ffff 0061 | 0061 0062 0063 0061 ffff 0061 | false | false | false | -65438
    0062 0063 0061 |  | 0062 0063 0061 | false | true | true | 3
    0062 0063 0061 | 0061 | 0062 0063 0061 0061 | false | false | true | 1
    0062 0063 0061 | 0062 | 0062 0063 0061 0062 | false | true | false | 2
    0062 0063 0061 | 0061 0062 | 0062 0063 0061 0061 0062 | false | false | false | 1
    0062 0063 0061 | 0061 0062 0063 | 0062 0063 0061 0061 0062 0063 | false | false | false | 1
    0062 0063 0061 | 0061 0062 0063 0061 | 0062 0063 0061 0061 0062 0063 0061 | false | false | false | 1
    0062 0063 0061 | 0062 0063 0061 | 0062 0063 0061 0062 0063 0061 | true | true | true | 0
    0062 0063 0061 | 0000 | 0062 0063 0061 0000 | false | false | false | 98
    0062 0063 0061 | 0061 0062 0000 | 0062 0063 0061 0061 0062 0000 | false | false | false | 1
    0062 0063 0061 | d83d de00 | 0062 0063 0061 d83d de00 | false | false | false | -55259
    0062 0063 0061 | de00 | 0062 0063 0061 de00 | false | false | false | -56734
    0062 0063 0061 | d83d | 0062 0063 0061 d83d | false | false | false | -55259
    0062 0063 0061 | ffff 0061 | 0062 0063 0061 ffff 0061 | false | false | false | -65437
    0000 |  | 0000 | false | true | true | 1
    0000 | 0061 | 0000 0061 | false | false | false | -97
    0000 | 0062 | 0000 0062 | false | false | false | -98
    0000 | 0061 0062 | 0000 0061 0062 | false | false | false | -97
    0000 | 0061 0062 0063 | 0000 0061 0062 0063 | false | false | false | -97
    0000 | 0061 0062 0063 0061 | 0000 0061 0062 0063 0061 | false | false | false | -97
    0000 | 0062 0063 0061 | 0000 0062 0063 0061 | false | false | false | -98
    0000 | 0000 | 0000 0000 | true | true | true | 0
    0000 | 0061 0062 0000 | 0000 0061 0062 0000 | false | false | false | -97
    0000 | d83d de00 | 0000 d83d de00 | false | false | false | -55357
    0000 | de00 | 0000 de00 | false | false | false | -56832
    0000 | d83d | 0000 d83d | false | false | false | -55357
    0000 | ffff 0061 | 0000 ffff 0061 | false | false | false | -65535
    0061 0062 0000 |  | 0061 0062 0000 | false | true | true | 3
    0061 0062 0000 | 0061 | 0061 0062 0000 0061 | false | true | false | 2
    0061 0062 0000 | 0062 | 0061 0062 0000 0062 | false | false | false | -1
    0061 0062 0000 | 0061 0062 | 0061 0062 0000 0061 0062 | false | true | false | 1
    0061 0062 0000 | 0061 0062 0063 | 0061 0062 0000 0061 0062 0063 | false | false | false | -99
    0061 0062 0000 | 0061 0062 0063 0061 | 0061 0062 0000 0061 0062 0063 0061 | false | false | false | -99
    0061 0062 0000 | 0062 0063 0061 | 0061 0062 0000 0062 0063 0061 | false | false | false | -1
    0061 0062 0000 | 0000 | 0061 0062 0000 0000 | false | false | true | 97
    0061 0062 0000 | 0061 0062 0000 | 0061 0062 0000 0061 0062 0000 | true | true | true | 0
    0061 0062 0000 | d83d de00 | 0061 0062 0000 d83d de00 | false | false | false | -55260
    0061 0062 0000 | de00 | 0061 0062 0000 de00 | false | false | false | -56735
    0061 0062 0000 | d83d | 0061 0062 0000 d83d | false | false | false | -55260
    0061 0062 0000 | ffff 0061 | 0061 0062 0000 ffff 0061 | false | false | false | -65438
    d83d de00 |  | d83d de00 | false | true | true | 2
    d83d de00 | 0061 | d83d de00 0061 | false | false | false | 55260
    d83d de00 | 0062 | d83d de00 0062 | false | false | false | 55259
    d83d de00 | 0061 0062 | d83d de00 0061 0062 | false | false | false | 55260
    d83d de00 | 0061 0062 0063 | d83d de00 0061 0062 0063 | false | false | false | 55260
    d83d de00 | 0061 0062 0063 0061 | d83d de00 0061 0062 0063 0061 | false | false | false | 55260
    d83d de00 | 0062 0063 0061 | d83d de00 0062 0063 0061 | false | false | false | 55259
    d83d de00 | 0000 | d83d de00 0000 | false | false | false | 55357
    d83d de00 | 0061 0062 0000 | d83d de00 0061 0062 0000 | false | false | false | 55260
    d83d de00 | d83d de00 | d83d de00 d83d de00 | true | true | true | 0
    d83d de00 | de00 | d83d de00 de00 | false | false | true | -1475
    d83d de00 | d83d | d83d de00 d83d | false | true | false | 1
    d83d de00 | ffff 0061 | d83d de00 ffff 0061 | false | false | false | -10178
    de00 |  | de00 | false | true | true | 1
    de00 | 0061 | de00 0061 | false | false | false | 56735
    de00 | 0062 | de00 0062 | false | false | false | 56734
    de00 | 0061 0062 | de00 0061 0062 | false | false | false | 56735
    de00 | 0061 0062 0063 | de00 0061 0062 0063 | false | false | false | 56735
    de00 | 0061 0062 0063 0061 | de00 0061 0062 0063 0061 | false | false | false | 56735
    de00 | 0062 0063 0061 | de00 0062 0063 0061 | false | false | false | 56734
    de00 | 0000 | de00 0000 | false | false | false | 56832
    de00 | 0061 0062 0000 | de00 0061 0062 0000 | false | false | false | 56735
    de00 | d83d de00 | de00 d83d de00 | false | false | false | 1475
    de00 | de00 | de00 de00 | true | true | true | 0
    de00 | d83d | de00 d83d | false | false | false | 1475
    de00 | ffff 0061 | de00 ffff 0061 | false | false | false | -8703
    d83d |  | d83d | false | true | true | 1
    d83d | 0061 | d83d 0061 | false | false | false | 55260
    d83d | 0062 | d83d 0062 | false | false | false | 55259
    d83d | 0061 0062 | d83d 0061 0062 | false | false | false | 55260
    d83d | 0061 0062 0063 | d83d 0061 0062 0063 | false | false | false | 55260
    d83d | 0061 0062 0063 0061 | d83d 0061 0062 0063 0061 | false | false | false | 55260
    d83d | 0062 0063 0061 | d83d 0062 0063 0061 | false | false | false | 55259
    d83d | 0000 | d83d 0000 | false | false | false | 55357
    d83d | 0061 0062 0000 | d83d 0061 0062 0000 | false | false | false | 55260
    d83d | d83d de00 | d83d d83d de00 | false | false | false | -1
    d83d | de00 | d83d de00 | false | false | false | -1475
    d83d | d83d | d83d d83d | true | true | true | 0
    d83d | ffff 0061 | d83d ffff 0061 | false | false | false | -10178
    ffff 0061 |  | ffff 0061 | false | true | true | 2
    ffff 0061 | 0061 | ffff 0061 0061 | false | false | true | 65438
    ffff 0061 | 0062 | ffff 0061 0062 | false | false | false | 65437
    ffff 0061 | 0061 0062 | ffff 0061 0061 0062 | false | false | false | 65438
    ffff 0061 | 0061 0062 0063 | ffff 0061 0061 0062 0063 | false | false | false | 65438
    ffff 0061 | 0061 0062 0063 0061 | ffff 0061 0061 0062 0063 0061 | false | false | false | 65438
    ffff 0061 | 0062 0063 0061 | ffff 0061 0062 0063 0061 | false | false | false | 65437
    ffff 0061 | 0000 | ffff 0061 0000 | false | false | false | 65535
    ffff 0061 | 0061 0062 0000 | ffff 0061 0061 0062 0000 | false | false | false | 65438
    ffff 0061 | d83d de00 | ffff 0061 d83d de00 | false | false | false | 10178
    ffff 0061 | de00 | ffff 0061 de00 | false | false | false | 8703
    ffff 0061 | d83d | ffff 0061 d83d | false | false | false | 10178
    ffff 0061 | ffff 0061 | ffff 0061 ffff 0061 | true | true | true | 0
";

/// A text, a unit, and the least place of it, or -1.
pub(crate) const PLACES: &str = "
     | 0061 | -1
     | 0062 | -1
     | 007a | -1
     | 0000 | -1
     | de00 | -1
     | ffff | -1
    0061 | 0061 | 0
    0061 | 0062 | -1
    0061 | 007a | -1
    0061 | 0000 | -1
    0061 | de00 | -1
    0061 | ffff | -1
    0062 | 0061 | -1
    0062 | 0062 | 0
    0062 | 007a | -1
    0062 | 0000 | -1
    0062 | de00 | -1
    0062 | ffff | -1
    0061 0062 | 0061 | 0
    0061 0062 | 0062 | 1
    0061 0062 | 007a | -1
    0061 0062 | 0000 | -1
    0061 0062 | de00 | -1
    0061 0062 | ffff | -1
    0061 0062 0063 | 0061 | 0
    0061 0062 0063 | 0062 | 1
    0061 0062 0063 | 007a | -1
    0061 0062 0063 | 0000 | -1
    0061 0062 0063 | de00 | -1
    0061 0062 0063 | ffff | -1
    0061 0062 0063 0061 | 0061 | 0
    0061 0062 0063 0061 | 0062 | 1
    0061 0062 0063 0061 | 007a | -1
    0061 0062 0063 0061 | 0000 | -1
    0061 0062 0063 0061 | de00 | -1
    0061 0062 0063 0061 | ffff | -1
    0062 0063 0061 | 0061 | 2
    0062 0063 0061 | 0062 | 0
    0062 0063 0061 | 007a | -1
    0062 0063 0061 | 0000 | -1
    0062 0063 0061 | de00 | -1
    0062 0063 0061 | ffff | -1
    0000 | 0061 | -1
    0000 | 0062 | -1
    0000 | 007a | -1
    0000 | 0000 | 0
    0000 | de00 | -1
    0000 | ffff | -1
    0061 0062 0000 | 0061 | 0
    0061 0062 0000 | 0062 | 1
    0061 0062 0000 | 007a | -1
    0061 0062 0000 | 0000 | 2
    0061 0062 0000 | de00 | -1
    0061 0062 0000 | ffff | -1
    d83d de00 | 0061 | -1
    d83d de00 | 0062 | -1
    d83d de00 | 007a | -1
    d83d de00 | 0000 | -1
    d83d de00 | de00 | 1
    d83d de00 | ffff | -1
    de00 | 0061 | -1
    de00 | 0062 | -1
    de00 | 007a | -1
    de00 | 0000 | -1
    de00 | de00 | 0
    de00 | ffff | -1
    d83d | 0061 | -1
    d83d | 0062 | -1
    d83d | 007a | -1
    d83d | 0000 | -1
    d83d | de00 | -1
    d83d | ffff | -1
    ffff 0061 | 0061 | 1
    ffff 0061 | 0062 | -1
    ffff 0061 | 007a | -1
    ffff 0061 | 0000 | -1
    ffff 0061 | de00 | -1
    ffff 0061 | ffff | 0
";

/// A number, and its text.
pub(crate) const DECIMALS: &str = "
    0 | 0030
    1 | 0031
    -1 | 002d 0031
    9 | 0039
    10 | 0031 0030
    -9 | 002d 0039
    -10 | 002d 0031 0030
    99 | 0039 0039
    100 | 0031 0030 0030
    65535 | 0036 0035 0035 0033 0035
    65536 | 0036 0035 0035 0033 0036
    -32768 | 002d 0033 0032 0037 0036 0038
    1000000000 | 0031 0030 0030 0030 0030 0030 0030 0030 0030 0030
    999999999 | 0039 0039 0039 0039 0039 0039 0039 0039 0039
    2147483647 | 0032 0031 0034 0037 0034 0038 0033 0036 0034 0037
    -2147483647 | 002d 0032 0031 0034 0037 0034 0038 0033 0036 0034 0037
    -2147483648 | 002d 0032 0031 0034 0037 0034 0038 0033 0036 0034 0038
";
