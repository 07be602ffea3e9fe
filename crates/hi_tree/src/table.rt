// The table of read classes.
ghost use Rattle.std.specs.Prelude.{◌≡◌, ℕ, List as list_of, [], ◌∷◌, ◌++◌, None, Some, length, option_copied};
ghost use Rattle.std.specs.Prelude.{option_map, string_bytes, OnOk, OnErr, IfErr};
ghost use Rattle.std.specs.Map.{update};
ghost use Rattle.std.specs.Str.{bytes_eq};
ghost use Rattle.indexmap.specs.IndexMap.{get_by_text};

use crate::known::{Above, KnownClass};
use cf_class::ClassFile;
use indexmap::IndexMap;
use jv_base::{List, Mem, Name};
use lib_rows::find_class;
use std::alloc::Global;
use std::marker::Model;

/// The classes that were read, each found by its name in constant time. Contracts see the list of them, in the
/// order in which
/// they were put in.
#[derive(Drop)]
pub struct Classes {
    classes: List<ClassFile>,
    index: IndexMap<String, usize>,
}

impl Model for Classes {
    ghost use Rattle.std.specs.Prelude.{List as list_of};
    ghost use Rattle.cf_class.specs.declared.class_file.ClassFile.{ClassFile};
    ghost use Rattle.indexmap.specs.IndexMap.{get_by_text};
    ghost use Rattle.hi_tree.specs.Calls.Index.{IsIndex};

    ghost Value = { list_of ClassFile };

    ghost view = { λ c. c.classes };

    ghost invariant = { λ c. IsIndex (λ name. get_by_text c.index name) c.classes };
}

// Puts a place under a name.
fn put_place(index: &mut IndexMap<String, usize>, name: String, place: usize) -> Mem<()>
    ensures ok { OnOk result ((q : list_of ℕ) → get_by_text index.new q ≡ update bytes_eq
        (λ p. get_by_text index.old p) (string_bytes name) (Some place) q) }
    ensures unchanged { OnErr result (index.new.entries ≡ index.old.entries) }
{
    index.insert(name, place)?;
    Ok(())
}

// Puts a class at the end, and its place under its name.
fn put(
    alloc: Global,
    classes: &mut List<ClassFile>,
    index: &mut IndexMap<String, usize>,
    class: ClassFile,
) -> Result<(), ClassFile>
    ensures ok { OnOk result (classes.new ≡ classes.old ++ class ∷ []) }
    ensures index { OnOk result ((q : list_of ℕ) → get_by_text index.new q
        ≡ update bytes_eq (λ p. get_by_text index.old p) class.this_class.name (Some (length classes.old)) q) }
    ensures unchanged { OnErr result ((classes.new ≡ classes.old) × (index.new.entries ≡ index.old.entries)) }
    ensures back { IfErr result (λ back. back ≡ class) }
{
    let Ok(name) = String::from_str(alloc, class.this_class.name.as_str()) else {
        return Err(class);
    };
    let place = classes.length();
    classes.push(class)?;
    if put_place(index, name, place).is_ok() {
        return Ok(());
    }
    match classes.pop() {
        Some(class) => Err(class),
        None => unreachable!(),
    }
}

impl Classes {
    ghost use Rattle.hi_tree.specs.Classes.{class_in, known_class, read_in};
    ghost use Rattle.hi_tree.specs.Calls.Steps.{known_of, above_name};

    /// A table without classes. It takes no memory.
    pub fn new(alloc: Global) -> Classes
        ensures { result ≡ [] }
    {
        Classes {
            classes: List::new(alloc),
            index: IndexMap::new(alloc),
        }
    }

    /// Puts a class in. For want of memory the table stays, and the class is handed back.
    pub fn add(&mut self, alloc: Global, class: ClassFile) -> Result<(), ClassFile>
        requires { class_in self.old class.this_class.name ≡ None }
        ensures ok { OnOk result (self.new ≡ self.old ++ class ∷ []) }
        ensures unchanged { OnErr result (self.new ≡ self.old) }
        ensures back { IfErr result (λ back. back ≡ class) }
    {
        put(alloc, &mut self.classes, &mut self.index, class)
    }

    /// The class that was put in under a name.
    pub fn find(&self, name: &Name) -> Option<&ClassFile>
        ensures { option_copied result ≡ class_in self.now name.now }
    {
        self.read_class(name.as_str())
    }

    pub(crate) fn read_class(&self, name: &str) -> Option<&ClassFile>
        ensures { option_copied result ≡ class_in self.now name.now }
    {
        let place = *self.index.get(name)?;
        Some(self.classes.at(place))
    }

    /// The class that was put in under a name, if no built-in class has the name.
    pub fn read(&self, name: &Name) -> Option<&ClassFile>
        ensures { option_copied result ≡ read_in self.now name.now }
    {
        match find_class(name) {
            Some(_) => None,
            None => self.read_class(name.as_str()),
        }
    }

    /// The class of a name, if it is known.
    pub(crate) fn known<'a>(&'a self, class: Above<'a>) -> Option<KnownClass<'a>>
        ensures { option_map known_of result ≡ known_class self.now (above_name class.entry) }
    {
        match class {
            Above::Builtin(class) => Some(KnownClass::Builtin(class)),
            Above::Named(name) => match find_class(name) {
                Some(class) => Some(KnownClass::Builtin(class)),
                None => match self.read_class(name.as_str()) {
                    Some(class) => Some(KnownClass::Read(class)),
                    None => None,
                },
            },
        }
    }
}
