//! Arrays of a heap, as they are written.
ghost use Rattle.std.specs.Prelude.{◌≡◌, ◌+◌, ◌^◌, ◌<◌, ◌≤◌, IfSome, OnSome, IfNone, OnOk, IfErr, OnErr};
ghost use Rattle.std.specs.List.{insert, remove};
ghost use Rattle.heap_meaning.specs.Heap.{content_at, SetsItem, InsertsItem, TakesItem};
ghost use Rattle.heap_meaning.specs.Reading.{HoldsArray, item_in, length_in};
ghost use Rattle.heap_meaning.specs.Framing.{Grows, Rewritten, ItemsChange};
ghost use Rattle.brs_heap.specs.declared.heap.SetFault.TheVariants.{TooLong, NoMemory};

use crate::items::{insert_item, place_item, take_item_at};
use crate::{Heap, SetFault, Value};

/// An array has at most so many items, and an associative array at most so many keys.
pub const MAX_LENGTH: usize = 1 << 20;

impl Heap {
    /// Puts the item at a place of an array, counted from 0. Past its end the array grows, with
    /// `invalid` before the item. What stood there is released.
    pub fn set(&mut self, v: &Value, at: usize, item: Value) -> Result<(), SetFault>
        requires { HoldsArray (content_at self.old v.now) }
        ensures set { OnOk result (SetsItem self.old self.new v.now at item) }
        ensures grows { OnOk result (Grows self.old self.new v.now at item) }
        ensures long { 2 ^ 20 ≤ at → result ≡ Err (TooLong item) }
        ensures memory { at < 2 ^ 20 → IfErr result (λ fault. fault ≡ NoMemory item) }
        ensures unchanged { OnErr result (self.new ≡ self.old) }
        ensures shares { self.new.shares ≡ self.old.shares }
    {
        if at >= MAX_LENGTH {
            return Err(SetFault::TooLong(item));
        }
        let Some(place) = v.place() else {
            unreachable!()
        };
        match place_item(&mut self.cells, place, at, item) {
            Err(back) => Err(SetFault::NoMemory(back)),
            Ok(old) => {
                self.release(old);
                Ok(())
            }
        }
    }

    /// Puts the item before those from a place of an array on, counted from 0. At the length of the
    /// array it goes to the end.
    pub fn insert(&mut self, v: &Value, at: usize, item: Value) -> Result<(), SetFault>
        requires array { HoldsArray (content_at self.old v.now) }
        requires at { at ≤ length_in (content_at self.old v.now) }
        ensures inserted { OnOk result (InsertsItem self.old self.new v.now at item) }
        ensures rewritten { OnOk result (Rewritten self.old self.new v.now (ItemsChange (λ items. insert items at item))) }
        ensures long { 2 ^ 20 ≤ length_in (content_at self.old v.now) → result ≡ Err (TooLong item) }
        ensures memory { length_in (content_at self.old v.now) < 2 ^ 20 → IfErr result (λ fault. fault ≡ NoMemory item) }
        ensures unchanged { OnErr result (self.new ≡ self.old) }
        ensures shares { self.new.shares ≡ self.old.shares }
    {
        if self.length(v) >= MAX_LENGTH {
            return Err(SetFault::TooLong(item));
        }
        let Some(place) = v.place() else {
            unreachable!()
        };
        insert_item(&mut self.cells, place, at, item)
    }

    /// Takes the item at a place of an array out, counted from 0, and closes the gap. It is `None`
    /// exactly where there is none, and then nothing changes. Takes no memory.
    pub fn take_item(&mut self, v: &Value, at: usize) -> Option<Value>
        ensures value { result ≡ item_in (content_at self.old v.now) at }
        ensures taken { IfSome result (λ item. TakesItem self.old self.new v.now at item) }
        ensures rewritten { OnSome result (Rewritten self.old self.new v.now (ItemsChange (λ items. remove items at))) }
        ensures unchanged { IfNone result (self.new ≡ self.old) }
        ensures shares { self.new.shares ≡ self.old.shares }
    {
        match v.place() {
            None => None,
            Some(place) => take_item_at(&mut self.cells, place, at),
        }
    }
}
