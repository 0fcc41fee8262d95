// Tables that share their chunks.
ghost use Rattle.std.specs.Prelude.{◌≡◌, ◌∷◌, ◌++◌, ◌+◌, ◌≤◌, ◌<◌, [], IfOk, OnOk, OnErr, Some, length, replicate, take, slice_get, slice_range, slice_set};
ghost use Rattle.std.specs.Option.{option_copied};

use crate::shared_tables::chunk::Chunk;
use std::alloc::{AllocError, Global};
use std::marker::Model;

/// How many items a chunk has.
pub(crate) const CHUNK: usize = 16;

/// A table that contracts see as the list of its items. Copies share their chunks of items, and a change copies the chunk
/// of its item alone, where it is shared.
#[derive(Drop)]
pub struct Table<T: Copy + Drop> {
    chunks: Vec<Chunk<T>>,
    count: usize,
}

impl<T: Copy + Drop> Model for Table<T> {
    ghost use Rattle.std.specs.Prelude.{List};
    ghost use Rattle.std.specs.Coded.{coded_list};
    ghost use Rattle.containers.specs.shared_tables.Chunks.{IsStored, items_of};

    ghost Value = { List T };

    ghost coded = { coded_list T.code };

    ghost view = { λ it. items_of it.chunks.items it.count };

    ghost invariant = { λ it. IsStored it.chunks.items it.count };
}

impl<T: Copy + Drop> Table<T> {
    /// A table without items, which takes no memory yet.
    pub fn new(alloc: Global) -> Table<T>
        ensures { result ≡ [] }
    {
        Table {
            chunks: Vec::new(alloc),
            count: 0,
        }
    }

    /// How many items there are.
    pub fn len(&self) -> usize
        ensures { result ≡ length self.now }
    {
        self.count
    }

    /// The item at a place, from 0.
    pub fn at(&self, place: usize) -> &T
        requires { place < length self.now }
        ensures { slice_get self.now place ≡ Some result.now }
    {
        &self.chunks[place / CHUNK].as_slice()[place % CHUNK]
    }

    /// The item at a place, from 0, or `None` past the end.
    pub fn get(&self, place: usize) -> Option<&T>
        ensures { option_copied result ≡ slice_get self.now place }
    {
        if place < self.len() {
            Some(self.at(place))
        } else {
            None
        }
    }

    /// The allocator from which more room is taken.
    pub fn allocator(&self) -> Global {
        *self.chunks.allocator()
    }

    /// Puts an item in the place of another. Where memory is refused the table stays as it was.
    pub fn set(&mut self, place: usize, item: T) -> Result<(), AllocError>
        requires { place < length self.old }
        ensures ok { OnOk result (self.new ≡ slice_set self.old place item) }
        ensures err { OnErr result (self.new ≡ self.old) }
    {
        let alloc = self.allocator();
        let chunk = &mut self.chunks[place / CHUNK];
        chunk.set(alloc, place % CHUNK, item)?;
        Ok(())
    }

    /// Adds an item at the end. Where memory is refused the table stays as it was.
    pub fn push(&mut self, item: T) -> Result<(), AllocError>
        ensures ok { OnOk result (self.new ≡ self.old ++ item ∷ []) }
        ensures err { OnErr result (self.new ≡ self.old) }
    {
        let alloc = self.allocator();
        let last = self.count / CHUNK;
        if last == self.chunks.len() {
            let chunk = Chunk::filled(alloc, CHUNK, item)?;
            self.chunks.push(chunk)?;
            self.count += 1;
            return Ok(());
        }
        let chunk = &mut self.chunks[last];
        chunk.set(alloc, self.count % CHUNK, item)?;
        self.count += 1;
        Ok(())
    }

    /// Adds items at the end, in order.
    pub fn extend_from_slice(&mut self, items: &[T]) -> Result<(), AllocError>
        ensures { OnOk result (self.new ≡ self.old ++ items.now) }
    {
        for k in 0..items.len() {
            self.push(items[k])?;
        }
        Ok(())
    }

    /// Adds one item at the end, so many times.
    pub fn extend_with(&mut self, item: T, count: usize) -> Result<(), AllocError>
        ensures { OnOk result (self.new ≡ self.old ++ replicate count item) }
    {
        for k in 0..count {
            self.push(item)?;
        }
        Ok(())
    }

    /// Drops the items from a place on.
    pub fn truncate(&mut self, count: usize)
        ensures { self.new ≡ take count self.old }
    {
        if count < self.count {
            self.count = count;
            self.chunks.truncate(count / CHUNK + 1);
        }
    }

    /// The same table, which shares all chunks. It takes a pointer for each chunk.
    pub fn share(&self) -> Result<Table<T>, AllocError>
        ensures { IfOk result (λ table. table ≡ self.now) }
    {
        let mut chunks = Vec::new(self.allocator());
        for chunk in &self.chunks {
            chunks.push(chunk.share()?)?;
        }
        Ok(Table {
            chunks,
            count: self.count,
        })
    }

    /// Copies of the items from one place to before another.
    pub fn range(&self, first: usize, end: usize) -> Result<Vec<T>, AllocError>
        requires order { first ≤ end }
        requires within { end ≤ length self.now }
        ensures { IfOk result (λ items. items.items ≡ slice_range self.now first end) }
    {
        let _all = self.len();
        let mut items = Vec::new(self.allocator());
        for k in 0..end - first {
            items.push(*self.at(first + k))?;
        }
        Ok(items)
    }
}
