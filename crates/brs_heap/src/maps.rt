//! Associative arrays of a heap, as they are written.
ghost use Rattle.std.specs.Prelude.{◌≡◌, ◌^◌, ◌<◌, ◌≤◌, IsUtf8, IfSome, OnSome, IfNone, OnOk, IfErr, OnErr};
ghost use Rattle.chan_values.specs.Folded.{folded};
ghost use Rattle.heap_meaning.specs.Values.{Cell as AtCell};
ghost use Rattle.heap_meaning.specs.Keys.{with_key, without_key, IsGap};
ghost use Rattle.heap_meaning.specs.Heap.{content_at, SetsKey, TakesKey};
ghost use Rattle.heap_meaning.specs.Reading.{HoldsPairs, IsFull, keys_in, length_in, value_in};
ghost use Rattle.heap_meaning.specs.Framing.{GrowsByKey, Rewritten, EntriesChange};
ghost use Rattle.brs_heap.specs.declared.heap.SetFault.TheVariants.{TooLong, NoMemory};

use crate::arrays::MAX_LENGTH;
use crate::cell::Entry;
use crate::entries::{insert_entry, put_value, take_entry};
use crate::keys::find_key;
use crate::{Heap, SetFault, Value};
use chan_values::fold_name;

impl Heap {
    /// Puts the item at a key of an associative array, whatever the case of the key's letters. What
    /// stood there is released.
    pub fn set_key(&mut self, v: &Value, key: &[u8], item: Value) -> Result<(), SetFault>
        requires pairs { HoldsPairs (content_at self.old v.now) }
        requires key { IsUtf8 key.now }
        ensures set { OnOk result (SetsKey self.old self.new v.now key.now item) }
        ensures grows { OnOk result (GrowsByKey self.old self.new v.now (folded key.now) item) }
        ensures long { IsFull (content_at self.old v.now) (folded key.now) → result ≡ Err (TooLong item) }
        ensures memory { (IsFull (content_at self.old v.now) (folded key.now) → ⊥) → IfErr result (λ fault. fault ≡ NoMemory item) }
        ensures unchanged { OnErr result (self.new ≡ self.old) }
        ensures shares { self.new.shares ≡ self.old.shares }
    {
        let Some(place) = v.place() else {
            unreachable!()
        };
        let Some(entries) = self.entries(v) else {
            unreachable!()
        };
        match find_key(entries, key) {
            Err(at) => self.add_key(v, place, at, key, item),
            Ok(at) => {
                let old = put_value(&mut self.cells, place, at, item);
                self.release(old);
                Ok(())
            }
        }
    }

    /// Puts the item at a key that is new.
    fn add_key(
        &mut self,
        v: &Value,
        place: usize,
        at: usize,
        key: &[u8],
        item: Value,
    ) -> Result<(), SetFault>
        requires pairs { HoldsPairs (content_at self.old v.now) }
        requires place { v.now ≡ AtCell place }
        requires gap { IsGap (keys_in (content_at self.old v.now)) (folded key.now) at }
        requires key { IsUtf8 key.now }
        ensures set { OnOk result (SetsKey self.old self.new v.now key.now item) }
        ensures rewritten { OnOk result (Rewritten self.old self.new v.now (EntriesChange (λ entries. with_key entries (folded key.now) item))) }
        ensures long { 2 ^ 20 ≤ length_in (content_at self.old v.now) → result ≡ Err (TooLong item) }
        ensures memory { length_in (content_at self.old v.now) < 2 ^ 20 → IfErr result (λ fault. fault ≡ NoMemory item) }
        ensures unchanged { OnErr result (self.new ≡ self.old) }
        ensures shares { self.new.shares ≡ self.old.shares }
    {
        if self.length(v) >= MAX_LENGTH {
            return Err(SetFault::TooLong(item));
        }
        let Ok(key) = fold_name(self.alloc, key) else {
            return Err(SetFault::NoMemory(item));
        };
        let entry = Entry { key, value: item };
        insert_entry(&mut self.cells, place, at, entry)
    }

    /// Takes the value at a key of an associative array out, with the key, whatever the case of its
    /// letters. It is `None` exactly where there is none, and then nothing changes. Takes no memory.
    pub fn take_key(&mut self, v: &Value, key: &[u8]) -> Option<Value>
        ensures value { result ≡ value_in (content_at self.old v.now) (folded key.now) }
        ensures taken { IfSome result (λ item. TakesKey self.old self.new v.now key.now item) }
        ensures rewritten { OnSome result (Rewritten self.old self.new v.now (EntriesChange (λ entries. without_key entries (folded key.now)))) }
        ensures unchanged { IfNone result (self.new ≡ self.old) }
        ensures shares { self.new.shares ≡ self.old.shares }
    {
        let place = v.place()?;
        let entries = self.entries(v)?;
        match find_key(entries, key) {
            Err(_) => None,
            Ok(at) => Some(take_entry(&mut self.cells, place, at)),
        }
    }
}
