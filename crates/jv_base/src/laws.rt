// Laws of the definitions, each the contract of a function that does nothing.
ghost use Rattle.jv_base.specs.Laws.{FormsDecided, OneForm, OneFieldType, OneDescriptor, OneEntry, OneSite, GoalOrder};

/// A text is a descriptor in one way only: no two forms of field types, and no two of methods, have one text (JVM
/// Specification SE 8, 4.3).
pub fn one_form()
    ensures { OneForm }
{}

/// No two field types have one text, so what `read_field_type` gives is the one with this text.
pub fn one_field_type()
    ensures { OneFieldType }
{}

/// No two descriptors have one text, so what `read_descriptor` gives is the one with this text.
pub fn one_descriptor()
    ensures { OneDescriptor }
{}

/// No two entries have one text form, so what `read_entry` gives is the one with this text.
pub fn one_entry()
    ensures { OneEntry }
{}

/// No two goals have one text form, so what `read_site` gives is the one with this text.
pub fn one_site()
    ensures { OneSite }
{}

/// `compare_goals` is a total order that tells goals apart: swapping exchanges less and greater, it is transitive, and
/// equal are only the same.
pub fn goal_order()
    ensures { GoalOrder }
{}

/// Each text has a form, or has it not: the grammars of names and descriptors are decidable.
pub fn forms_decided()
    ensures { FormsDecided }
{}
