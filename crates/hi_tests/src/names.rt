// The names directly above classes, and which classes a class file alone makes known, in the form of `cases.rt`. A class
// file of a built-in name is one that no run reads.
pub(crate) const NAMES: &str = "
    world names directly above
    interface I | java/lang/Object | |
    interface J | java/lang/Object | I |
    class A | Lost | J I |
    class java/lang/String | A | J |
    above A | J I Lost
    above J | I java/lang/Object
    above Lost |
    above java/lang/Object |
    above java/lang/String | java/io/Serializable java/lang/Comparable java/lang/CharSequence java/lang/Object
    super A | Lost
    super J | java/lang/Object
    super Lost |
    super java/lang/Object |
    super java/lang/String | java/lang/Object
    read A | class
    read J | interface
    read Lost | none
    read java/lang/String | none
    read java/lang/Object | none
";
