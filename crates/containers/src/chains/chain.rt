// Lists that share their tails.
ghost use Rattle.std.specs.Prelude.{◌≡◌, [], ◌∷◌, IfOk, MatchOption};
ghost use Rattle.std.specs.Iterator.{YieldsFirstRef, item_count};

use std::alloc::{AllocError, Global};
use std::fmt;
use std::marker::Model;
use std::rc::Rc;

/// A list that contracts see as its elements. What is put before it shares it, and so does a copy.
#[cycle(chain)]
pub struct Chain<T: Drop> {
    top: Link<T>,
}

#[cycle(chain)]
enum Link<T: Drop> {
    End,
    More(Rc<Cell<T>>),
}

#[cycle(chain)]
#[derive(Drop)]
struct Cell<T: Drop> {
    first: T,
    rest: Chain<T>,
}

impl<T: Drop> Model for Chain<T> {
    ghost use Rattle.std.specs.Prelude.{List, length};
    ghost use Rattle.std.specs.Coded.{coded_list};

    ghost Value = { List T };

    ghost coded = { coded_list T.code };

    ghost use Rattle.containers.specs.chains.Items.{items};

    ghost view = { λ a. items a.top };

    ghost size = { length };

    ghost use Rattle.std.proofs.Common.{arith, length-append};

    ghost size_decreases = { λ a h. Prim.grind (arith, length-append) };
}

impl<T: Drop> Chain<T> {
    /// The empty list.
    pub fn new() -> Chain<T>
        ensures { result ≡ [] }
    {
        Chain { top: Link::End }
    }

    /// The list with an element before all of another one, which it shares.
    pub fn with(alloc: Global, first: T, rest: Chain<T>) -> Result<Chain<T>, AllocError>
        ensures { IfOk result (λ chain. chain ≡ first ∷ rest) }
    {
        let cell = Rc::new(alloc, Cell { first, rest })?;
        Ok(Chain {
            top: Link::More(cell),
        })
    }

    /// The first element, and the list behind it.
    pub fn split(&self) -> Option<(&T, &Chain<T>)>
        ensures { MatchOption result (self.now ≡ []) (λ parts. self.now ≡ parts.0.now ∷ parts.1.now) }
    {
        match &self.top {
            Link::End => None,
            Link::More(cell) => Some((&cell.first, &cell.rest)),
        }
    }

    /// The same list, which shares all elements. It fails only where there are too many copies to be counted.
    pub fn share(&self) -> Result<Chain<T>, AllocError>
        ensures { IfOk result (λ chain. chain ≡ self.now) }
    {
        match &self.top {
            Link::End => Ok(Chain { top: Link::End }),
            Link::More(cell) => Ok(Chain {
                top: Link::More(cell.clone()?),
            }),
        }
    }
}

impl<T: Drop> Chain<T> {
    /// The elements, one after another.
    pub fn iter(&self) -> ChainIter<'_, T>
        ensures { result ≡ self.now }
    {
        ChainIter { rest: self }
    }
}

/// The elements of a list that are left.
pub struct ChainIter<'a, T: Drop> {
    rest: &'a Chain<T>,
}

impl<'a, T: Drop> Model for ChainIter<'a, T> {
    ghost use Rattle.std.specs.Prelude.{List};
    ghost use Rattle.std.specs.Coded.{coded_list};

    ghost Value = { List T };

    ghost coded = { coded_list T.code };

    ghost view = { λ i. i.rest.now };
}

impl<'a, T: Drop> Drop for ChainIter<'a, T> {
    fn drop(self) {
        let ChainIter { rest: _rest } = self;
    }
}

impl<'a, T: Drop> Iterator for ChainIter<'a, T> {
    type Item = &'a T;

    ghost next_gives = { YieldsFirstRef (λ s. s) };

    ghost remaining = { item_count (λ s. s) };

    fn next(&mut self) -> Option<&'a T> {
        let (first, rest) = self.rest.split()?;
        self.rest = rest;
        Some(first)
    }
}

impl<'a, T: Drop> IntoIterator for &'a Chain<T> {
    type Item = &'a T;

    type IntoIter = ChainIter<'a, T>;

    ghost into_iter_gives = { λ it i. i ≡ it.now };

    fn into_iter(self) -> ChainIter<'a, T> {
        self.iter()
    }
}

impl<T: Drop + fmt::Debug> fmt::Debug for Chain<T> {
    fn fmt<W: fmt::Write>(&self, f: &mut fmt::Formatter<W>) -> fmt::Result {
        write!(f, "[")?;
        for item in self.iter() {
            write!(f, "{item:?}, ")?;
        }
        write!(f, "]")
    }
}

// A loop, so that a long list is dropped in little stack. It ends where another list shares what is left.
impl<T: Drop> Drop for Chain<T> {
    fn drop(mut self) {
        'cells: loop {
            let Chain { top } = self;
            match top {
                Link::End => return,
                Link::More(cell) => match Rc::into_inner(cell) {
                    None => return,
                    Some(last) => {
                        let Cell {
                            first: _first,
                            rest,
                        } = last;
                        self = rest;
                    }
                },
            }
        }
    }
}
