// What the JVM answers for the library rows. `java LibraryRows.java` writes this file.

/// A row, its receiver, two operands, and the answer. Texts are units in hexadecimal.
pub(crate) const STRINGS: &str = "
    length |  |  |  | 0
    isEmpty |  |  |  | 1
    charAt |  | -2147483648 |  | strindex
    tail |  | -2147483648 |  | strindex
    charAt |  | -1 |  | strindex
    tail |  | -1 |  | strindex
    charAt |  | 0 |  | strindex
    tail |  | 0 |  | text
    charAt |  | 1 |  | strindex
    tail |  | 1 |  | strindex
    charAt |  | 2 |  | strindex
    tail |  | 2 |  | strindex
    charAt |  | 3 |  | strindex
    tail |  | 3 |  | strindex
    charAt |  | 4 |  | strindex
    tail |  | 4 |  | strindex
    charAt |  | 5 |  | strindex
    tail |  | 5 |  | strindex
    charAt |  | 2147483647 |  | strindex
    tail |  | 2147483647 |  | strindex
    substring |  | -1 | -1 | strindex
    substring |  | -1 | 0 | strindex
    substring |  | -1 | 1 | strindex
    substring |  | -1 | 2 | strindex
    substring |  | -1 | 3 | strindex
    substring |  | -1 | 4 | strindex
    substring |  | -1 | 5 | strindex
    substring |  | 0 | -1 | strindex
    substring |  | 0 | 0 | text
    substring |  | 0 | 1 | strindex
    substring |  | 0 | 2 | strindex
    substring |  | 0 | 3 | strindex
    substring |  | 0 | 4 | strindex
    substring |  | 0 | 5 | strindex
    substring |  | 1 | -1 | strindex
    substring |  | 1 | 0 | strindex
    substring |  | 1 | 1 | strindex
    substring |  | 1 | 2 | strindex
    substring |  | 1 | 3 | strindex
    substring |  | 1 | 4 | strindex
    substring |  | 1 | 5 | strindex
    substring |  | 2 | -1 | strindex
    substring |  | 2 | 0 | strindex
    substring |  | 2 | 1 | strindex
    substring |  | 2 | 2 | strindex
    substring |  | 2 | 3 | strindex
    substring |  | 2 | 4 | strindex
    substring |  | 2 | 5 | strindex
    substring |  | 3 | -1 | strindex
    substring |  | 3 | 0 | strindex
    substring |  | 3 | 1 | strindex
    substring |  | 3 | 2 | strindex
    substring |  | 3 | 3 | strindex
    substring |  | 3 | 4 | strindex
    substring |  | 3 | 5 | strindex
    substring |  | 4 | -1 | strindex
    substring |  | 4 | 0 | strindex
    substring |  | 4 | 1 | strindex
    substring |  | 4 | 2 | strindex
    substring |  | 4 | 3 | strindex
    substring |  | 4 | 4 | strindex
    substring |  | 4 | 5 | strindex
    indexOf |  | 0 |  | -1
    indexOf |  | 97 |  | -1
    indexOf |  | 98 |  | -1
    indexOf |  | 122 |  | -1
    indexOf |  | 55357 |  | -1
    indexOf |  | 56832 |  | -1
    indexOf |  | 65535 |  | -1
    concat |  | null |  | null
    equals |  | null |  | 0
    startsWith |  | null |  | null
    endsWith |  | null |  | null
    compareTo |  | null |  | null
    concat |  |  |  | text
    equals |  |  |  | 1
    startsWith |  |  |  | 1
    endsWith |  |  |  | 1
    compareTo |  |  |  | 0
    concat |  | 0061 |  | text 0061
    equals |  | 0061 |  | 0
    startsWith |  | 0061 |  | 0
    endsWith |  | 0061 |  | 0
    compareTo |  | 0061 |  | -1
    concat |  | 0061 0062 0063 |  | text 0061 0062 0063
    equals |  | 0061 0062 0063 |  | 0
    startsWith |  | 0061 0062 0063 |  | 0
    endsWith |  | 0061 0062 0063 |  | 0
    compareTo |  | 0061 0062 0063 |  | -3
    concat |  | 0062 0063 |  | text 0062 0063
    equals |  | 0062 0063 |  | 0
    startsWith |  | 0062 0063 |  | 0
    endsWith |  | 0062 0063 |  | 0
    compareTo |  | 0062 0063 |  | -2
    concat |  | 0062 |  | text 0062
    equals |  | 0062 |  | 0
    startsWith |  | 0062 |  | 0
    endsWith |  | 0062 |  | 0
    compareTo |  | 0062 |  | -1
    concat |  | de00 |  | text de00
    equals |  | de00 |  | 0
    startsWith |  | de00 |  | 0
    endsWith |  | de00 |  | 0
    compareTo |  | de00 |  | -1
    length | 0061 0062 0063 |  |  | 3
    isEmpty | 0061 0062 0063 |  |  | 0
    charAt | 0061 0062 0063 | -2147483648 |  | strindex
    tail | 0061 0062 0063 | -2147483648 |  | strindex
    charAt | 0061 0062 0063 | -1 |  | strindex
    tail | 0061 0062 0063 | -1 |  | strindex
    charAt | 0061 0062 0063 | 0 |  | 97
    tail | 0061 0062 0063 | 0 |  | text 0061 0062 0063
    charAt | 0061 0062 0063 | 1 |  | 98
    tail | 0061 0062 0063 | 1 |  | text 0062 0063
    charAt | 0061 0062 0063 | 2 |  | 99
    tail | 0061 0062 0063 | 2 |  | text 0063
    charAt | 0061 0062 0063 | 3 |  | strindex
    tail | 0061 0062 0063 | 3 |  | text
    charAt | 0061 0062 0063 | 4 |  | strindex
    tail | 0061 0062 0063 | 4 |  | strindex
    charAt | 0061 0062 0063 | 5 |  | strindex
    tail | 0061 0062 0063 | 5 |  | strindex
    charAt | 0061 0062 0063 | 2147483647 |  | strindex
    tail | 0061 0062 0063 | 2147483647 |  | strindex
    substring | 0061 0062 0063 | -1 | -1 | strindex
    substring | 0061 0062 0063 | -1 | 0 | strindex
    substring | 0061 0062 0063 | -1 | 1 | strindex
    substring | 0061 0062 0063 | -1 | 2 | strindex
    substring | 0061 0062 0063 | -1 | 3 | strindex
    substring | 0061 0062 0063 | -1 | 4 | strindex
    substring | 0061 0062 0063 | -1 | 5 | strindex
    substring | 0061 0062 0063 | 0 | -1 | strindex
    substring | 0061 0062 0063 | 0 | 0 | text
    substring | 0061 0062 0063 | 0 | 1 | text 0061
    substring | 0061 0062 0063 | 0 | 2 | text 0061 0062
    substring | 0061 0062 0063 | 0 | 3 | text 0061 0062 0063
    substring | 0061 0062 0063 | 0 | 4 | strindex
    substring | 0061 0062 0063 | 0 | 5 | strindex
    substring | 0061 0062 0063 | 1 | -1 | strindex
    substring | 0061 0062 0063 | 1 | 0 | strindex
    substring | 0061 0062 0063 | 1 | 1 | text
    substring | 0061 0062 0063 | 1 | 2 | text 0062
    substring | 0061 0062 0063 | 1 | 3 | text 0062 0063
    substring | 0061 0062 0063 | 1 | 4 | strindex
    substring | 0061 0062 0063 | 1 | 5 | strindex
    substring | 0061 0062 0063 | 2 | -1 | strindex
    substring | 0061 0062 0063 | 2 | 0 | strindex
    substring | 0061 0062 0063 | 2 | 1 | strindex
    substring | 0061 0062 0063 | 2 | 2 | text
    substring | 0061 0062 0063 | 2 | 3 | text 0063
    substring | 0061 0062 0063 | 2 | 4 | strindex
    substring | 0061 0062 0063 | 2 | 5 | strindex
    substring | 0061 0062 0063 | 3 | -1 | strindex
    substring | 0061 0062 0063 | 3 | 0 | strindex
    substring | 0061 0062 0063 | 3 | 1 | strindex
    substring | 0061 0062 0063 | 3 | 2 | strindex
    substring | 0061 0062 0063 | 3 | 3 | text
    substring | 0061 0062 0063 | 3 | 4 | strindex
    substring | 0061 0062 0063 | 3 | 5 | strindex
    substring | 0061 0062 0063 | 4 | -1 | strindex
    substring | 0061 0062 0063 | 4 | 0 | strindex
    substring | 0061 0062 0063 | 4 | 1 | strindex
    substring | 0061 0062 0063 | 4 | 2 | strindex
    substring | 0061 0062 0063 | 4 | 3 | strindex
    substring | 0061 0062 0063 | 4 | 4 | strindex
    substring | 0061 0062 0063 | 4 | 5 | strindex
    indexOf | 0061 0062 0063 | 0 |  | -1
    indexOf | 0061 0062 0063 | 97 |  | 0
    indexOf | 0061 0062 0063 | 98 |  | 1
    indexOf | 0061 0062 0063 | 122 |  | -1
    indexOf | 0061 0062 0063 | 55357 |  | -1
    indexOf | 0061 0062 0063 | 56832 |  | -1
    indexOf | 0061 0062 0063 | 65535 |  | -1
    concat | 0061 0062 0063 | null |  | null
    equals | 0061 0062 0063 | null |  | 0
    startsWith | 0061 0062 0063 | null |  | null
    endsWith | 0061 0062 0063 | null |  | null
    compareTo | 0061 0062 0063 | null |  | null
    concat | 0061 0062 0063 |  |  | text 0061 0062 0063
    equals | 0061 0062 0063 |  |  | 0
    startsWith | 0061 0062 0063 |  |  | 1
    endsWith | 0061 0062 0063 |  |  | 1
    compareTo | 0061 0062 0063 |  |  | 3
    concat | 0061 0062 0063 | 0061 |  | text 0061 0062 0063 0061
    equals | 0061 0062 0063 | 0061 |  | 0
    startsWith | 0061 0062 0063 | 0061 |  | 1
    endsWith | 0061 0062 0063 | 0061 |  | 0
    compareTo | 0061 0062 0063 | 0061 |  | 2
    concat | 0061 0062 0063 | 0061 0062 0063 |  | text 0061 0062 0063 0061 0062 0063
    equals | 0061 0062 0063 | 0061 0062 0063 |  | 1
    startsWith | 0061 0062 0063 | 0061 0062 0063 |  | 1
    endsWith | 0061 0062 0063 | 0061 0062 0063 |  | 1
    compareTo | 0061 0062 0063 | 0061 0062 0063 |  | 0
    concat | 0061 0062 0063 | 0062 0063 |  | text 0061 0062 0063 0062 0063
    equals | 0061 0062 0063 | 0062 0063 |  | 0
    startsWith | 0061 0062 0063 | 0062 0063 |  | 0
    endsWith | 0061 0062 0063 | 0062 0063 |  | 1
    compareTo | 0061 0062 0063 | 0062 0063 |  | -1
    concat | 0061 0062 0063 | 0062 |  | text 0061 0062 0063 0062
    equals | 0061 0062 0063 | 0062 |  | 0
    startsWith | 0061 0062 0063 | 0062 |  | 0
    endsWith | 0061 0062 0063 | 0062 |  | 0
    compareTo | 0061 0062 0063 | 0062 |  | -1
    concat | 0061 0062 0063 | de00 |  | text 0061 0062 0063 de00
    equals | 0061 0062 0063 | de00 |  | 0
    startsWith | 0061 0062 0063 | de00 |  | 0
    endsWith | 0061 0062 0063 | de00 |  | 0
    compareTo | 0061 0062 0063 | de00 |  | -56735
    length | 0061 0062 d83d de00 |  |  | 4
    isEmpty | 0061 0062 d83d de00 |  |  | 0
    charAt | 0061 0062 d83d de00 | -2147483648 |  | strindex
    tail | 0061 0062 d83d de00 | -2147483648 |  | strindex
    charAt | 0061 0062 d83d de00 | -1 |  | strindex
    tail | 0061 0062 d83d de00 | -1 |  | strindex
    charAt | 0061 0062 d83d de00 | 0 |  | 97
    tail | 0061 0062 d83d de00 | 0 |  | text 0061 0062 d83d de00
    charAt | 0061 0062 d83d de00 | 1 |  | 98
    tail | 0061 0062 d83d de00 | 1 |  | text 0062 d83d de00
    charAt | 0061 0062 d83d de00 | 2 |  | 55357
    tail | 0061 0062 d83d de00 | 2 |  | text d83d de00
    charAt | 0061 0062 d83d de00 | 3 |  | 56832
    tail | 0061 0062 d83d de00 | 3 |  | text de00
    charAt | 0061 0062 d83d de00 | 4 |  | strindex
    tail | 0061 0062 d83d de00 | 4 |  | text
    charAt | 0061 0062 d83d de00 | 5 |  | strindex
    tail | 0061 0062 d83d de00 | 5 |  | strindex
    charAt | 0061 0062 d83d de00 | 2147483647 |  | strindex
    tail | 0061 0062 d83d de00 | 2147483647 |  | strindex
    substring | 0061 0062 d83d de00 | -1 | -1 | strindex
    substring | 0061 0062 d83d de00 | -1 | 0 | strindex
    substring | 0061 0062 d83d de00 | -1 | 1 | strindex
    substring | 0061 0062 d83d de00 | -1 | 2 | strindex
    substring | 0061 0062 d83d de00 | -1 | 3 | strindex
    substring | 0061 0062 d83d de00 | -1 | 4 | strindex
    substring | 0061 0062 d83d de00 | -1 | 5 | strindex
    substring | 0061 0062 d83d de00 | 0 | -1 | strindex
    substring | 0061 0062 d83d de00 | 0 | 0 | text
    substring | 0061 0062 d83d de00 | 0 | 1 | text 0061
    substring | 0061 0062 d83d de00 | 0 | 2 | text 0061 0062
    substring | 0061 0062 d83d de00 | 0 | 3 | text 0061 0062 d83d
    substring | 0061 0062 d83d de00 | 0 | 4 | text 0061 0062 d83d de00
    substring | 0061 0062 d83d de00 | 0 | 5 | strindex
    substring | 0061 0062 d83d de00 | 1 | -1 | strindex
    substring | 0061 0062 d83d de00 | 1 | 0 | strindex
    substring | 0061 0062 d83d de00 | 1 | 1 | text
    substring | 0061 0062 d83d de00 | 1 | 2 | text 0062
    substring | 0061 0062 d83d de00 | 1 | 3 | text 0062 d83d
    substring | 0061 0062 d83d de00 | 1 | 4 | text 0062 d83d de00
    substring | 0061 0062 d83d de00 | 1 | 5 | strindex
    substring | 0061 0062 d83d de00 | 2 | -1 | strindex
    substring | 0061 0062 d83d de00 | 2 | 0 | strindex
    substring | 0061 0062 d83d de00 | 2 | 1 | strindex
    substring | 0061 0062 d83d de00 | 2 | 2 | text
    substring | 0061 0062 d83d de00 | 2 | 3 | text d83d
    substring | 0061 0062 d83d de00 | 2 | 4 | text d83d de00
    substring | 0061 0062 d83d de00 | 2 | 5 | strindex
    substring | 0061 0062 d83d de00 | 3 | -1 | strindex
    substring | 0061 0062 d83d de00 | 3 | 0 | strindex
    substring | 0061 0062 d83d de00 | 3 | 1 | strindex
    substring | 0061 0062 d83d de00 | 3 | 2 | strindex
    substring | 0061 0062 d83d de00 | 3 | 3 | text
    substring | 0061 0062 d83d de00 | 3 | 4 | text de00
    substring | 0061 0062 d83d de00 | 3 | 5 | strindex
    substring | 0061 0062 d83d de00 | 4 | -1 | strindex
    substring | 0061 0062 d83d de00 | 4 | 0 | strindex
    substring | 0061 0062 d83d de00 | 4 | 1 | strindex
    substring | 0061 0062 d83d de00 | 4 | 2 | strindex
    substring | 0061 0062 d83d de00 | 4 | 3 | strindex
    substring | 0061 0062 d83d de00 | 4 | 4 | text
    substring | 0061 0062 d83d de00 | 4 | 5 | strindex
    indexOf | 0061 0062 d83d de00 | 0 |  | -1
    indexOf | 0061 0062 d83d de00 | 97 |  | 0
    indexOf | 0061 0062 d83d de00 | 98 |  | 1
    indexOf | 0061 0062 d83d de00 | 122 |  | -1
    indexOf | 0061 0062 d83d de00 | 55357 |  | 2
    indexOf | 0061 0062 d83d de00 | 56832 |  | 3
    indexOf | 0061 0062 d83d de00 | 65535 |  | -1
    concat | 0061 0062 d83d de00 | null |  | null
    equals | 0061 0062 d83d de00 | null |  | 0
    startsWith | 0061 0062 d83d de00 | null |  | null
    endsWith | 0061 0062 d83d de00 | null |  | null
    compareTo | 0061 0062 d83d de00 | null |  | null
    concat | 0061 0062 d83d de00 |  |  | text 0061 0062 d83d de00
    equals | 0061 0062 d83d de00 |  |  | 0
    startsWith | 0061 0062 d83d de00 |  |  | 1
    endsWith | 0061 0062 d83d de00 |  |  | 1
    compareTo | 0061 0062 d83d de00 |  |  | 4
    concat | 0061 0062 d83d de00 | 0061 |  | text 0061 0062 d83d de00 0061
    equals | 0061 0062 d83d de00 | 0061 |  | 0
    startsWith | 0061 0062 d83d de00 | 0061 |  | 1
    endsWith | 0061 0062 d83d de00 | 0061 |  | 0
    compareTo | 0061 0062 d83d de00 | 0061 |  | 3
    concat | 0061 0062 d83d de00 | 0061 0062 0063 |  | text 0061 0062 d83d de00 0061 0062 0063
    equals | 0061 0062 d83d de00 | 0061 0062 0063 |  | 0
    startsWith | 0061 0062 d83d de00 | 0061 0062 0063 |  | 0
    endsWith | 0061 0062 d83d de00 | 0061 0062 0063 |  | 0
    compareTo | 0061 0062 d83d de00 | 0061 0062 0063 |  | 55258
    concat | 0061 0062 d83d de00 | 0062 0063 |  | text 0061 0062 d83d de00 0062 0063
    equals | 0061 0062 d83d de00 | 0062 0063 |  | 0
    startsWith | 0061 0062 d83d de00 | 0062 0063 |  | 0
    endsWith | 0061 0062 d83d de00 | 0062 0063 |  | 0
    compareTo | 0061 0062 d83d de00 | 0062 0063 |  | -1
    concat | 0061 0062 d83d de00 | 0062 |  | text 0061 0062 d83d de00 0062
    equals | 0061 0062 d83d de00 | 0062 |  | 0
    startsWith | 0061 0062 d83d de00 | 0062 |  | 0
    endsWith | 0061 0062 d83d de00 | 0062 |  | 0
    compareTo | 0061 0062 d83d de00 | 0062 |  | -1
    concat | 0061 0062 d83d de00 | de00 |  | text 0061 0062 d83d de00 de00
    equals | 0061 0062 d83d de00 | de00 |  | 0
    startsWith | 0061 0062 d83d de00 | de00 |  | 0
    endsWith | 0061 0062 d83d de00 | de00 |  | 1
    compareTo | 0061 0062 d83d de00 | de00 |  | -56735
    length | null |  |  | null
    isEmpty | null |  |  | null
    charAt | null | -2147483648 |  | null
    tail | null | -2147483648 |  | null
    charAt | null | -1 |  | null
    tail | null | -1 |  | null
    charAt | null | 0 |  | null
    tail | null | 0 |  | null
    charAt | null | 1 |  | null
    tail | null | 1 |  | null
    charAt | null | 2 |  | null
    tail | null | 2 |  | null
    charAt | null | 3 |  | null
    tail | null | 3 |  | null
    charAt | null | 4 |  | null
    tail | null | 4 |  | null
    charAt | null | 5 |  | null
    tail | null | 5 |  | null
    charAt | null | 2147483647 |  | null
    tail | null | 2147483647 |  | null
    substring | null | -1 | -1 | null
    substring | null | -1 | 0 | null
    substring | null | -1 | 1 | null
    substring | null | -1 | 2 | null
    substring | null | -1 | 3 | null
    substring | null | -1 | 4 | null
    substring | null | -1 | 5 | null
    substring | null | 0 | -1 | null
    substring | null | 0 | 0 | null
    substring | null | 0 | 1 | null
    substring | null | 0 | 2 | null
    substring | null | 0 | 3 | null
    substring | null | 0 | 4 | null
    substring | null | 0 | 5 | null
    substring | null | 1 | -1 | null
    substring | null | 1 | 0 | null
    substring | null | 1 | 1 | null
    substring | null | 1 | 2 | null
    substring | null | 1 | 3 | null
    substring | null | 1 | 4 | null
    substring | null | 1 | 5 | null
    substring | null | 2 | -1 | null
    substring | null | 2 | 0 | null
    substring | null | 2 | 1 | null
    substring | null | 2 | 2 | null
    substring | null | 2 | 3 | null
    substring | null | 2 | 4 | null
    substring | null | 2 | 5 | null
    substring | null | 3 | -1 | null
    substring | null | 3 | 0 | null
    substring | null | 3 | 1 | null
    substring | null | 3 | 2 | null
    substring | null | 3 | 3 | null
    substring | null | 3 | 4 | null
    substring | null | 3 | 5 | null
    substring | null | 4 | -1 | null
    substring | null | 4 | 0 | null
    substring | null | 4 | 1 | null
    substring | null | 4 | 2 | null
    substring | null | 4 | 3 | null
    substring | null | 4 | 4 | null
    substring | null | 4 | 5 | null
    indexOf | null | 0 |  | null
    indexOf | null | 97 |  | null
    indexOf | null | 98 |  | null
    indexOf | null | 122 |  | null
    indexOf | null | 55357 |  | null
    indexOf | null | 56832 |  | null
    indexOf | null | 65535 |  | null
    concat | null | null |  | null
    equals | null | null |  | null
    startsWith | null | null |  | null
    endsWith | null | null |  | null
    compareTo | null | null |  | null
    concat | null |  |  | null
    equals | null |  |  | null
    startsWith | null |  |  | null
    endsWith | null |  |  | null
    compareTo | null |  |  | null
    concat | null | 0061 |  | null
    equals | null | 0061 |  | null
    startsWith | null | 0061 |  | null
    endsWith | null | 0061 |  | null
    compareTo | null | 0061 |  | null
    concat | null | 0061 0062 0063 |  | null
    equals | null | 0061 0062 0063 |  | null
    startsWith | null | 0061 0062 0063 |  | null
    endsWith | null | 0061 0062 0063 |  | null
    compareTo | null | 0061 0062 0063 |  | null
    concat | null | 0062 0063 |  | null
    equals | null | 0062 0063 |  | null
    startsWith | null | 0062 0063 |  | null
    endsWith | null | 0062 0063 |  | null
    compareTo | null | 0062 0063 |  | null
    concat | null | 0062 |  | null
    equals | null | 0062 |  | null
    startsWith | null | 0062 |  | null
    endsWith | null | 0062 |  | null
    compareTo | null | 0062 |  | null
    concat | null | de00 |  | null
    equals | null | de00 |  | null
    startsWith | null | de00 |  | null
    endsWith | null | de00 |  | null
    compareTo | null | de00 |  | null
    ofInt |  | 0 |  | text 0030
    ofChar |  | 0 |  | text 0000
    ofInt |  | -1 |  | text 002d 0031
    ofChar |  | -1 |  | text ffff
    ofInt |  | 10 |  | text 0031 0030
    ofChar |  | 10 |  | text 000a
    ofInt |  | 65633 |  | text 0036 0035 0036 0033 0033
    ofChar |  | 65633 |  | text 0061
    ofInt |  | 2147483647 |  | text 0032 0031 0034 0037 0034 0038 0033 0036 0034 0037
    ofChar |  | 2147483647 |  | text ffff
    ofInt |  | -2147483648 |  | text 002d 0032 0031 0034 0037 0034 0038 0033 0036 0034 0038
    ofChar |  | -2147483648 |  | text 0000
    ofBoolean |  | 0 |  | text 0066 0061 006c 0073 0065
    ofBoolean |  | 1 |  | text 0074 0072 0075 0065
";

/// A row, the content of a StringBuilder, an operand, and the answer: the content after it, if none is given.
pub(crate) const BUILDERS: &str = "
    length |  |  | 0
    toString |  |  | text
    charAt |  | -2147483648 | strindex
    charAt |  | -1 | strindex
    charAt |  | 0 | strindex
    charAt |  | 1 | strindex
    charAt |  | 2 | strindex
    charAt |  | 3 | strindex
    charAt |  | 4 | strindex
    charAt |  | 5 | strindex
    charAt |  | 2147483647 | strindex
    appendText |  | null | text 006e 0075 006c 006c
    appendText |  |  | text
    appendText |  | 0061 | text 0061
    appendText |  | 0061 0062 0063 | text 0061 0062 0063
    appendText |  | 0062 0063 | text 0062 0063
    appendText |  | 0062 | text 0062
    appendText |  | de00 | text de00
    appendInt |  | 0 | text 0030
    appendChar |  | 0 | text 0000
    appendInt |  | -1 | text 002d 0031
    appendChar |  | -1 | text ffff
    appendInt |  | 65633 | text 0036 0035 0036 0033 0033
    appendChar |  | 65633 | text 0061
    appendInt |  | -2147483648 | text 002d 0032 0031 0034 0037 0034 0038 0033 0036 0034 0038
    appendChar |  | -2147483648 | text 0000
    appendBoolean |  | 0 | text 0066 0061 006c 0073 0065
    appendBoolean |  | 1 | text 0074 0072 0075 0065
    length | 0061 0062 0063 |  | 3
    toString | 0061 0062 0063 |  | text 0061 0062 0063
    charAt | 0061 0062 0063 | -2147483648 | strindex
    charAt | 0061 0062 0063 | -1 | strindex
    charAt | 0061 0062 0063 | 0 | 97
    charAt | 0061 0062 0063 | 1 | 98
    charAt | 0061 0062 0063 | 2 | 99
    charAt | 0061 0062 0063 | 3 | strindex
    charAt | 0061 0062 0063 | 4 | strindex
    charAt | 0061 0062 0063 | 5 | strindex
    charAt | 0061 0062 0063 | 2147483647 | strindex
    appendText | 0061 0062 0063 | null | text 0061 0062 0063 006e 0075 006c 006c
    appendText | 0061 0062 0063 |  | text 0061 0062 0063
    appendText | 0061 0062 0063 | 0061 | text 0061 0062 0063 0061
    appendText | 0061 0062 0063 | 0061 0062 0063 | text 0061 0062 0063 0061 0062 0063
    appendText | 0061 0062 0063 | 0062 0063 | text 0061 0062 0063 0062 0063
    appendText | 0061 0062 0063 | 0062 | text 0061 0062 0063 0062
    appendText | 0061 0062 0063 | de00 | text 0061 0062 0063 de00
    appendInt | 0061 0062 0063 | 0 | text 0061 0062 0063 0030
    appendChar | 0061 0062 0063 | 0 | text 0061 0062 0063 0000
    appendInt | 0061 0062 0063 | -1 | text 0061 0062 0063 002d 0031
    appendChar | 0061 0062 0063 | -1 | text 0061 0062 0063 ffff
    appendInt | 0061 0062 0063 | 65633 | text 0061 0062 0063 0036 0035 0036 0033 0033
    appendChar | 0061 0062 0063 | 65633 | text 0061 0062 0063 0061
    appendInt | 0061 0062 0063 | -2147483648 | text 0061 0062 0063 002d 0032 0031 0034 0037 0034 0038 0033 0036 0034 0038
    appendChar | 0061 0062 0063 | -2147483648 | text 0061 0062 0063 0000
    appendBoolean | 0061 0062 0063 | 0 | text 0061 0062 0063 0066 0061 006c 0073 0065
    appendBoolean | 0061 0062 0063 | 1 | text 0061 0062 0063 0074 0072 0075 0065
    initText |  | null | null
    initText |  |  | text
    initText |  | 0061 | text 0061
    initText |  | 0061 0062 0063 | text 0061 0062 0063
    initText |  | 0062 0063 | text 0062 0063
    initText |  | 0062 | text 0062
    initText |  | de00 | text de00
    init |  |  | text
";
