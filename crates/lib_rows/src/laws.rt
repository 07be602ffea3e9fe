// Laws of the tables, each the contract of a function that does nothing.
ghost use Rattle.lib_rows.specs.Laws.{ClassRules, OneRow};

/// No two built-in classes have one name, and their superclasses and superinterfaces are as class files have them.
pub fn class_rules()
    ensures { ClassRules }
{}

/// No two rows have one class, name and descriptor.
pub fn one_row()
    ensures { OneRow }
{}
