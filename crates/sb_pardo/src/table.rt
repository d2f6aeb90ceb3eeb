//! Tables: what a look-up reads.

ghost use Rattle.std.specs.Prelude.{◌≡◌, ◌<◌, ◌↔◌, ℕ, IsTrue, None, IfSome, IfOk, OnOk, OnErr, length, slice_index_or};
ghost use Rattle.std.specs.FinMap as map;
ghost use Rattle.sb_record.specs.Keys.{IsKey};
ghost use Rattle.sb_record.specs.declared.key.Key.TheVariants.{Number};
ghost use Rattle.sb_pardo.specs.ListedImages as spec;
ghost use Rattle.sb_pardo.specs.Tables.{HasKeyImages};

use sb_record::{Key, NoMemory};
use std::alloc::Global;
use std::collections::BTreeMap;
use std::marker::Model;

/// Numbers below this have their images in a list, too, where a look-up is one read and no search.
const LISTED_KEYS: u64 = 65_536;

/// A finite map from keys to keys. Each image is a key that a record may have: a number is at most
/// [`MAX_KEY`](sb_record::MAX_KEY).
#[derive(Drop)]
pub struct Table {
    images: BTreeMap<Key, Key>,
    /// At the place of each small number its image. No small number behind the end has one.
    listed: Vec<Option<Key>>,
}

impl Model for Table {
    ghost use Rattle.std.specs.FinMap as map;
    ghost use Rattle.sb_record.specs.Keys.{key_cmp};
    ghost use Rattle.sb_record.specs.declared.key.Key.{Key};
    ghost use Rattle.sb_pardo.specs.KeyCode.{coded_key};
    ghost use Rattle.sb_pardo.specs.ListedImages.{IsListed};
    ghost use Rattle.sb_pardo.specs.Tables.{HasKeyImages};

    ghost Value = { map.FinMap key_cmp Key };

    ghost coded = { map.code coded_key coded_key };

    ghost view = { λ t. map.from_entries t.images.entries };

    ghost invariant = { λ t. HasKeyImages (map.from_entries t.images.entries)
        × IsListed t.listed.items (map.from_entries t.images.entries) };
}

/// The number of a key whose image is in the list.
fn listed_number(key: &Key) -> Option<u64>
    ensures { result ≡ spec.listed_number key.now }
{
    match key {
        Key::Number(number) if *number < LISTED_KEYS => Some(*number),
        _ => None,
    }
}

/// What the list has for a number.
fn image_at(listed: &[Option<Key>], number: u64) -> Option<Key>
    ensures { result ≡ slice_index_or listed.now number None }
{
    listed.get(number as usize).copied().unwrap_or(None)
}

/// Makes the list reach to a number. Only a number behind its end can want memory.
fn reach(listed: &mut Vec<Option<Key>>, number: u64) -> Result<(), NoMemory>
    requires { number < LISTED_KEYS }
    ensures same { (n : ℕ) → slice_index_or listed.new.items n None ≡ slice_index_or listed.old.items n None }
    ensures reached { OnOk result (number < length listed.new.items) }
    ensures absent { OnErr result (slice_index_or listed.old.items number None ≡ None) }
{
    let place = number as usize;
    if place < listed.len() {
        return Ok(());
    }
    listed.resize(place + 1, None)?;
    Ok(())
}

impl Table {
    /// The table of no keys.
    pub fn new(alloc: Global) -> Table
        ensures { result ≡ map.empty }
    {
        Table {
            images: BTreeMap::new(alloc),
            listed: Vec::new(alloc),
        }
    }

    /// Sets the image of a key, and gives the one before. Only a new key can want memory; where there is none the table
    /// stays as it was.
    pub fn insert(&mut self, key: Key, image: Key) -> Result<Option<Key>, NoMemory>
        requires { IsKey image }
        ensures before { IfOk result (λ before. before ≡ map.get self.old key) }
        ensures ok { OnOk result (self.new ≡ map.insert self.old key image) }
        ensures new_key { OnErr result (map.get self.old key ≡ None) }
        ensures err { OnErr result (self.new ≡ self.old) }
    {
        match listed_number(&key) {
            Some(number) => self.insert_listed(number, &image),
            None => self.insert_unlisted(key, image),
        }
    }

    /// Sets the image of a small number.
    fn insert_listed(&mut self, number: u64, image: &Key) -> Result<Option<Key>, NoMemory>
        requires key { IsKey image.now }
        requires small { number < LISTED_KEYS }
        ensures before { IfOk result (λ before. before ≡ map.get self.old (Number number)) }
        ensures ok { OnOk result (self.new ≡ map.insert self.old (Number number) image.now) }
        ensures new_key { OnErr result (map.get self.old (Number number) ≡ None) }
        ensures err { OnErr result (self.new ≡ self.old) }
    {
        reach(&mut self.listed, number)?;
        let before = self.images.insert(Key::Number(number), *image)?;
        self.listed[number as usize] = Some(*image);
        Ok(before)
    }

    /// Sets the image of another key.
    fn insert_unlisted(&mut self, key: Key, image: Key) -> Result<Option<Key>, NoMemory>
        requires key { IsKey image }
        requires unlisted { spec.listed_number key ≡ None }
        ensures before { IfOk result (λ before. before ≡ map.get self.old key) }
        ensures ok { OnOk result (self.new ≡ map.insert self.old key image) }
        ensures new_key { OnErr result (map.get self.old key ≡ None) }
        ensures err { OnErr result (self.new ≡ self.old) }
    {
        Ok(self.images.insert(key, image)?)
    }

    /// Whether each image is a key that a record may have, as it is in every table.
    pub(crate) fn has_key_images(&self) -> bool
        ensures { IsTrue result ↔ HasKeyImages self.now }
    {
        // For the proof: what holds of every table is known once its field is named.
        let _ = &self.images;
        true
    }

    /// The image of a key, where the table has one.
    pub fn image(&self, key: &Key) -> Option<Key>
        ensures value { result ≡ map.get self.now key.now }
        ensures range { IfSome result IsKey }
    {
        match listed_number(key) {
            Some(number) => image_at(&self.listed, number),
            None => self.searched_image(key),
        }
    }

    /// The image that the map has for a key.
    fn searched_image(&self, key: &Key) -> Option<Key>
        ensures { result ≡ map.get self.now key.now }
    {
        self.images.get(key).copied()
    }
}
