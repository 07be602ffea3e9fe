// The heap: objects, numbered from 1 in the order in which they were made.
ghost use Rattle.std.specs.Prelude.{◌≡◌, ◌+◌, ◌<◌, ◌^◌, ◌++◌, ◌∷◌, [], length, is_some, OnOk, OnErr, IfOk};
ghost use Rattle.std.specs.Option.{option_copied};
ghost use Rattle.vm_world.specs.Heap.{object_at, field_at, element_at, text_at, changed};
ghost use Rattle.vm_world.specs.Objects.{with_field, with_element, with_text};

use crate::copies::copied;
use crate::object::{Object, element_of, field_of, put_element, put_field, put_text, text_of};
use jv_base::{FieldId, Mem, TryCopy, Value};
use st_text::Text;
use std::alloc::Global;
use std::marker::Model;

/// Objects, numbered from 1 in the order in which they were made. Contracts see the list of them: the object of number n
/// is the n-th. It is found in constant time.
#[derive(Debug, Drop)]
pub struct Heap {
    objects: Vec<Object>,
}

impl Model for Heap {
    ghost use Rattle.std.specs.Prelude.{List};
    ghost use Rattle.vm_world.specs.declared.object.Object.{Object};

    ghost Value = { List Object };

    ghost view = { λ h. h.objects.items };
}

impl Heap {
    /// No object. It takes no memory.
    pub fn new(alloc: Global) -> Heap
        ensures { result ≡ [] }
    {
        Heap {
            objects: Vec::new(alloc),
        }
    }

    pub fn copy(&self, alloc: Global) -> Mem<Heap>
        ensures { IfOk result (λ copy. copy ≡ self.now) }
    {
        Ok(Heap {
            objects: copied(alloc, self.objects.as_slice())?,
        })
    }

    /// How many objects there are, which is the greatest number of one.
    pub fn count(&self) -> u64
        ensures { result ≡ length self.now }
    {
        self.objects.len() as u64
    }

    /// The object of a number.
    pub fn find(&self, number: u64) -> Option<&Object>
        ensures { option_copied result ≡ object_at self.now number }
    {
        if number == 0 {
            None
        } else {
            self.objects.get((number - 1) as usize)
        }
    }

    /// A new object, which gets the next number.
    pub fn make(&mut self, object: Object) -> Mem<u64>
        ensures number { IfOk result (λ number. number ≡ length self.old + 1) }
        ensures ok { OnOk result (self.new ≡ self.old ++ object ∷ []) }
        ensures unchanged { OnErr result (self.new ≡ self.old) }
    {
        self.objects.push(object)?;
        Ok(self.objects.len() as u64)
    }

    /// The value of a field of an object.
    pub fn field(&self, number: u64, field: &FieldId) -> Option<Value>
        ensures { result ≡ field_at self.now number field.now }
    {
        match self.find(number) {
            Some(object) => field_of(object, field),
            None => None,
        }
    }

    /// The element of an array at a place.
    pub fn element(&self, number: u64, place: u32) -> Option<Value>
        ensures { result ≡ element_at self.now number place }
    {
        match self.find(number) {
            Some(object) => element_of(object, place),
            None => None,
        }
    }

    /// The content of a String or a StringBuilder.
    pub fn text(&self, number: u64) -> Option<&Text>
        ensures { option_copied result ≡ text_at self.now number }
    {
        match self.find(number) {
            Some(object) => text_of(object),
            None => None,
        }
    }

    /// Gives a field of an object another value, and answers whether there is such a field. Nothing else changes.
    pub fn put_field(&mut self, number: u64, field: &FieldId, value: Value) -> bool
        ensures found { result ≡ is_some (field_at self.old number field.now) }
        ensures value { self.new ≡ changed self.old number (λ object. with_field object field.now value) }
    {
        if number == 0 || number > self.objects.len() as u64 {
            return false;
        }
        put_field(&mut self.objects[(number - 1) as usize], field, value)
    }

    /// Gives an array another element at a place, and answers whether there is such a place. Nothing else changes.
    pub fn put_element(&mut self, number: u64, place: u32, value: Value) -> bool
        ensures found { result ≡ is_some (element_at self.old number place) }
        ensures value { self.new ≡ changed self.old number (λ object. with_element object place value) }
    {
        if number == 0 || number > self.objects.len() as u64 {
            return false;
        }
        put_element(&mut self.objects[(number - 1) as usize], place, value)
    }

    /// Gives a String or a StringBuilder another content, and answers whether there is one of this number. Nothing else
    /// changes.
    pub fn put_text(&mut self, number: u64, text: Text) -> bool
        ensures found { result ≡ is_some (text_at self.old number) }
        ensures value { self.new ≡ changed self.old number (λ object. with_text object text) }
    {
        if number == 0 || number > self.objects.len() as u64 {
            return false;
        }
        put_text(&mut self.objects[(number - 1) as usize], text)
    }
}
