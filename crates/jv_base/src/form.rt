// The forms of names and descriptors, character by character.
ghost use Rattle.std.specs.Prelude.{◌≡◌, ◌↔◌, IsTrue};
ghost use Rattle.jv_base.specs.Names.{IsClassName};
ghost use Rattle.jv_base.specs.Entry.{IsAnyMethodName};
ghost use Rattle.jv_base.specs.Descriptor.{is_base_letter, IsFieldDescriptor, IsMethodDescriptor};
ghost use Rattle.jv_base.specs.Forms.{IsOfForm};
ghost use Rattle.jv_base.specs.Calls.Progress.{is_name_character, class_step, method_step, parameters_step, field_step, named_step, step, start_of, takes_names, is_whole};

/// What a text is to be.
#[derive(Clone, Copy, Debug, PartialEq, Eq)]
pub(crate) enum Form {
    ClassName,
    MethodName,
    MethodDescriptor,
    FieldDescriptor,
}

/// How far the characters of a text have come towards its form.
#[derive(Clone, Copy, Debug, PartialEq, Eq)]
pub(crate) enum Progress {
    /// In a class name, by whether the part at hand has a character.
    InClass(bool),
    /// In a method name, by whether it has a character.
    InMethod(bool),
    /// Before the `(` of a method descriptor.
    Open,
    /// Among the parameters, by the dimensions of the one at hand.
    Parameters(u8),
    /// Before a field type, by its dimensions so far, and whether it is the result of a method, which may be `V`.
    Field(u8, bool),
    /// In the class name of a field type, by whether it is a parameter, and whether the part at hand has a character.
    Named(bool, bool),
    /// After all of a descriptor.
    End,
}

pub(crate) fn start_of(form: Form) -> Progress
    ensures { result ≡ start_of form }
{
    match form {
        Form::ClassName => Progress::InClass(false),
        Form::MethodName => Progress::InMethod(false),
        Form::MethodDescriptor => Progress::Open,
        Form::FieldDescriptor => Progress::Field(0, false),
    }
}

/// Whether any character of a name may come next.
pub(crate) fn takes_names(progress: Progress) -> bool
    ensures { result ≡ takes_names progress }
{
    matches!(
        progress,
        Progress::InClass(_) | Progress::InMethod(_) | Progress::Named(_, _)
    )
}

fn is_name_character(c: char) -> bool
    ensures { result ≡ is_name_character c }
{
    !matches!(c, '.' | ';' | '[' | '/' | '\0')
}

fn is_base_letter(c: char) -> bool
    ensures { result ≡ is_base_letter c }
{
    matches!(c, 'B' | 'C' | 'D' | 'F' | 'I' | 'J' | 'S' | 'Z')
}

// Whether the part at hand of a class name has a character after one more.
fn class_step(some: bool, c: char) -> Option<bool>
    ensures { result ≡ class_step some c }
{
    if c == '/' {
        if some { Some(false) } else { None }
    } else if is_name_character(c) {
        Some(true)
    } else {
        None
    }
}

fn method_step(c: char) -> Option<bool>
    ensures { result ≡ method_step c }
{
    if is_name_character(c) && c != '<' && c != '>' {
        Some(true)
    } else {
        None
    }
}

fn parameters_step(dimensions: u8, c: char) -> Option<Progress>
    ensures { result ≡ parameters_step dimensions c }
{
    match c {
        '[' => Some(Progress::Parameters(dimensions.checked_add(1)?)),
        'L' => Some(Progress::Named(true, false)),
        ')' if dimensions == 0 => Some(Progress::Field(0, true)),
        _ if is_base_letter(c) => Some(Progress::Parameters(0)),
        _ => None,
    }
}

fn field_step(dimensions: u8, last: bool, c: char) -> Option<Progress>
    ensures { result ≡ field_step dimensions last c }
{
    match c {
        '[' => Some(Progress::Field(dimensions.checked_add(1)?, last)),
        'L' => Some(Progress::Named(false, false)),
        'V' if last && dimensions == 0 => Some(Progress::End),
        _ if is_base_letter(c) => Some(Progress::End),
        _ => None,
    }
}

fn named_step(parameter: bool, some: bool, c: char) -> Option<Progress>
    ensures { result ≡ named_step parameter some c }
{
    if c != ';' {
        return Some(Progress::Named(parameter, class_step(some, c)?));
    }
    match (some, parameter) {
        (false, _) => None,
        (true, true) => Some(Progress::Parameters(0)),
        (true, false) => Some(Progress::End),
    }
}

/// How far a text has come with one more character, where it can still get to its form.
pub(crate) fn step(progress: Progress, c: char) -> Option<Progress>
    ensures { result ≡ step progress c }
{
    match progress {
        Progress::InClass(some) => Some(Progress::InClass(class_step(some, c)?)),
        Progress::InMethod(_) => Some(Progress::InMethod(method_step(c)?)),
        Progress::Open => (c == '(').then_some(Progress::Parameters(0)),
        Progress::Parameters(dimensions) => parameters_step(dimensions, c),
        Progress::Field(dimensions, last) => field_step(dimensions, last, c),
        Progress::Named(parameter, some) => named_step(parameter, some, c),
        Progress::End => None,
    }
}

// Whether a text that leads so far has its form.
fn is_whole(progress: Progress) -> bool
    ensures { result ≡ is_whole progress }
{
    matches!(
        progress,
        Progress::InClass(true) | Progress::InMethod(true) | Progress::End
    )
}

/// Whether the bytes of a text have a form. A byte of a character that is not ASCII leads where the character does.
pub(crate) fn is_of_form(form: Form, text: &[u8]) -> bool
    ensures { IsTrue result ↔ IsOfForm form text.now }
{
    let mut progress = start_of(form);
    for b in text {
        let Some(next) = step(progress, char::from(*b)) else {
            return false;
        };
        progress = next;
    }
    is_whole(progress)
}

/// Whether a text is the name of a class (JVM Specification SE 8, 4.2.1).
pub fn is_class_name(text: &str) -> bool
    ensures { IsTrue result ↔ IsClassName text.now }
{
    is_of_form(Form::ClassName, text.as_bytes())
}

/// Whether a text is the name of a method, which may be `<init>` or `<clinit>` (JVM Specification SE 8, 4.2.2 and 2.9).
pub fn is_any_method_name(text: &str) -> bool
    ensures { IsTrue result ↔ IsAnyMethodName text.now }
{
    text == "<init>" || text == "<clinit>" || is_of_form(Form::MethodName, text.as_bytes())
}

/// Whether a text is the descriptor of a field (JVM Specification SE 8, 4.3.2).
pub fn is_field_descriptor(text: &str) -> bool
    ensures { IsTrue result ↔ IsFieldDescriptor text.now }
{
    is_of_form(Form::FieldDescriptor, text.as_bytes())
}

/// Whether a text is the descriptor of a method (JVM Specification SE 8, 4.3.3).
pub fn is_method_descriptor(text: &str) -> bool
    ensures { IsTrue result ↔ IsMethodDescriptor text.now }
{
    is_of_form(Form::MethodDescriptor, text.as_bytes())
}
