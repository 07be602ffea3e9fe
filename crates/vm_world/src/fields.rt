// Fields with their values, found by class, name and descriptor.
ghost use Rattle.std.specs.Prelude.{◌≡◌, ◌++◌, ◌∷◌, [], length, is_some, OnOk, OnErr, IfOk};
ghost use Rattle.std.specs.Option.{option_copied};
ghost use Rattle.jv_base.specs.declared.method.FieldId.{FieldId};
ghost use Rattle.vm_world.specs.Fields.{is_field, place_of_field, slot_of_field, value_in, with_value};

use crate::copies::copied;
use jv_base::{FieldId, Mem, TryCopy, Value};
use std::alloc::Global;
use std::marker::Model;

/// A field with its value.
#[derive(Debug, Drop)]
pub struct Slot {
    pub field: FieldId,
    pub value: Value,
}

impl TryCopy for Slot {
    fn copy(&self, alloc: Global) -> Mem<Slot> {
        Ok(Slot {
            field: copy_field(alloc, &self.field)?,
            value: self.value,
        })
    }
}

fn copy_field(alloc: Global, field: &FieldId) -> Mem<FieldId>
    ensures { IfOk result (λ copy. copy ≡ field.now) }
{
    Ok(FieldId {
        class: field.class.copy(alloc)?,
        name: field.name.copy(alloc)?,
        desc: field.desc.copy(alloc)?,
    })
}

/// A static field with its value.
pub type Static = Slot;

/// Fields with their values, in the order in which they were added.
#[derive(Debug, Drop)]
pub struct Fields {
    slots: Vec<Slot>,
}

impl Model for Fields {
    ghost use Rattle.std.specs.Prelude.{List};
    ghost use Rattle.vm_world.specs.declared.fields.Slot.{Slot};

    ghost Value = { List Slot };

    ghost view = { λ f. f.slots.items };
}

/// Whether two fields have one class, name and descriptor.
pub fn is_same_field(a: &FieldId, b: &FieldId) -> bool
    ensures { result ≡ is_field a.now b.now }
{
    a.name.as_str() == b.name.as_str()
        && a.class.as_str() == b.class.as_str()
        && a.desc.as_str() == b.desc.as_str()
}

fn place_of(slots: &[Slot], field: &FieldId) -> Option<usize>
    ensures { result ≡ place_of_field slots.now field.now }
{
    slots
        .iter()
        .position(|slot| is_same_field(&slot.field, field))
}

fn slot_of<'a>(slots: &'a [Slot], field: &FieldId) -> Option<&'a Slot>
    ensures { option_copied result ≡ slot_of_field slots.now field.now }
{
    slots.iter().find(|slot| is_same_field(&slot.field, field))
}

impl Fields {
    /// No field. It takes no memory.
    pub fn new(alloc: Global) -> Fields
        ensures { result ≡ [] }
    {
        Fields {
            slots: Vec::new(alloc),
        }
    }

    pub fn copy(&self, alloc: Global) -> Mem<Fields>
        ensures { IfOk result (λ copy. copy ≡ self.now) }
    {
        Ok(Fields {
            slots: copied(alloc, self.slots.as_slice())?,
        })
    }

    pub fn as_slice(&self) -> &[Slot]
        ensures { result.now ≡ self.now }
    {
        self.slots.as_slice()
    }

    /// Puts a field at the end.
    pub fn add(&mut self, slot: Slot) -> Mem<()>
        ensures ok { OnOk result (self.new ≡ self.old ++ slot ∷ []) }
        ensures unchanged { OnErr result (self.new ≡ self.old) }
    {
        self.slots.push(slot)?;
        Ok(())
    }

    /// The value of a field; the first one's, where it stands more than once.
    pub fn value(&self, field: &FieldId) -> Option<Value>
        ensures { result ≡ value_in self.now field.now }
    {
        match slot_of(self.slots.as_slice(), field) {
            Some(slot) => Some(slot.value),
            None => None,
        }
    }

    /// Gives a field another value, and answers whether it is there. Where it is not, nothing changes.
    pub fn put(&mut self, field: &FieldId, value: Value) -> bool
        ensures found { result ≡ is_some (value_in self.old field.now) }
        ensures value { self.new ≡ with_value self.old field.now value }
    {
        match place_of(self.slots.as_slice(), field) {
            Some(place) => {
                self.slots[place].value = value;
                true
            }
            None => false,
        }
    }
}
