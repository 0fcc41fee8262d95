// Some items that several tables may share.
ghost use Rattle.std.specs.Prelude.{◌≡◌, ◌<◌, IfOk, OnOk, OnErr, length, replicate, slice_set};

use std::alloc::{AllocError, Global};
use std::marker::Model;
use std::rc::Rc;

/// Items that other chunks may share. Contracts see the list of them.
#[derive(Drop)]
pub(crate) struct Chunk<T: Copy + Drop> {
    items: Rc<Vec<T>>,
}

impl<T: Copy + Drop> Model for Chunk<T> {
    ghost use Rattle.std.specs.Prelude.{List};
    ghost use Rattle.std.specs.Coded.{coded_list};

    ghost Value = { List T };

    ghost coded = { coded_list T.code };

    ghost view = { λ it. it.items.value.items };
}

impl<T: Copy + Drop> Chunk<T> {
    /// So many times one item.
    pub(crate) fn filled(alloc: Global, count: usize, item: T) -> Result<Chunk<T>, AllocError>
        ensures { IfOk result (λ chunk. chunk ≡ replicate count item) }
    {
        let mut items = Vec::new(alloc);
        items.resize(count, item)?;
        let items = Rc::new(alloc, items)?;
        Ok(Chunk { items })
    }

    /// The items.
    pub(crate) fn as_slice(&self) -> &[T]
        ensures { result.now ≡ self.now }
    {
        self.items.as_slice()
    }

    /// The same chunk, which shares all items.
    pub(crate) fn share(&self) -> Result<Chunk<T>, AllocError>
        ensures { IfOk result (λ chunk. chunk ≡ self.now) }
    {
        let items = self.items.clone()?;
        Ok(Chunk { items })
    }

    /// Puts an item in the place of another. The items are copied first where another chunk shares them.
    pub(crate) fn set(&mut self, alloc: Global, at: usize, item: T) -> Result<(), AllocError>
        requires { at < length self.old }
        ensures ok { OnOk result (self.new ≡ slice_set self.old at item) }
        ensures err { OnErr result (self.new ≡ self.old) }
    {
        if let Some(items) = Rc::get_mut(&mut self.items) {
            items[at] = item;
            return Ok(());
        }
        let mut copy = Vec::from_slice(alloc, self.items.as_slice())?;
        copy[at] = item;
        self.items = Rc::new(alloc, copy)?;
        Ok(())
    }
}
