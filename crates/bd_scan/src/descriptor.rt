// What descriptors say of classes, floats and doubles (JVM Specification SE 8, 4.3).
ghost use Rattle.std.specs.Prelude.{◌≡◌, option_copied};
ghost use Rattle.bd_scan.specs.Descriptors.{without_brackets, object_class, named_class, has_float};

/// The text behind the `[` that it begins with.
fn without_brackets(text: &str) -> &str
    ensures { result.now ≡ without_brackets text.now }
{
    let mut rest = text;
    while let Some(after) = rest.strip_prefix('[') {
        rest = after;
    }
    rest
}

/// The class of `L`, a name and `;`.
fn object_class(text: &str) -> Option<&str>
    ensures { option_copied result ≡ object_class text.now }
{
    let Some(class) = text.strip_prefix('L') else {
        return None;
    };
    match class.split_once(';') {
        Some((name, _)) => Some(name),
        None => Some(class),
    }
}

/// The class that the text of a Class entry names: itself, but of an array type the class of its elements in the end
/// (4.4.1).
pub(crate) fn named_class(text: &str) -> Option<&str>
    ensures { option_copied result ≡ named_class text.now }
{
    match text.strip_prefix('[') {
        Some(elements) => object_class(without_brackets(elements)),
        None => Some(text),
    }
}

/// Whether a descriptor has a float or a double in it, or an array of them.
pub(crate) fn has_float(desc: &[u8]) -> bool
    ensures { result ≡ has_float desc.now }
{
    let mut in_name = false;
    let mut rest = desc;
    while let [letter, after @ ..] = rest {
        if in_name {
            in_name = *letter != b';';
        } else if *letter == b'F' || *letter == b'D' {
            return true;
        } else {
            in_name = *letter == b'L';
        }
        rest = after;
    }
    false
}
