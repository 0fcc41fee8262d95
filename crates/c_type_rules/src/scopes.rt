// The names that are in scope, lists of names, and the values of `case` of a `switch`.
ghost use Rattle.std.specs.Prelude.{◌≡◌, ◌-◌, [], ◌∷◌, ◌++◌, length, take, OnOk};
ghost use Rattle.std.specs.Ordering.{nat_cmp};
ghost use Rattle.std.specs.Cmp.Lexicographic.{slice_cmp};
ghost use Rattle.std.specs.BTreeMap.{get, Updates};
ghost use Rattle.std.specs.Option.{IsSome, option_copied};
ghost use Rattle.c_type_rules.specs.Scopes.{last_place, newest, has_name, name_place, has_case};

use c_typed_trees::Callee;
use c_values::Kind;
use cfa::Variable;
use containers::Vector;
use fq_core::Name;
use std::alloc::{AllocError, Global};
use std::collections::{BTreeMap, BTreeSet};
use std::marker::Model;

/// What a parameter is: an integer, or an array where it has a length.
#[derive(Clone, Copy, Debug, PartialEq, Eq)]
pub struct ParameterKind {
    pub kind: Kind,
    pub length: Option<u32>,
}

/// What is known of a function by its declarations.
#[derive(Debug, Drop)]
pub struct Signature {
    /// None where it is declared and not defined, and takes parameters or gives none.
    pub callee: Option<Callee>,
    /// A definition of it came already.
    pub defined: bool,
    /// None for `void`.
    pub result: Option<Kind>,
    pub parameters: Vector<ParameterKind>,
}

/// What a name stands for.
#[derive(Debug, Drop)]
pub enum Meaning {
    Variable(Variable),
    /// An enumeration constant, with its value, an int.
    Constant(u64),
    Function(Signature),
}

/// A name that is bound in a scope, by the scope's level, that of the file being 0.
#[derive(Debug, Drop)]
pub struct Bound {
    pub name: Name,
    pub level: u32,
    pub meaning: Meaning,
}

/// The bound names, the oldest first.
#[derive(Drop)]
pub struct Scopes {
    list: Vector<Bound>,
    /// The last place of each name.
    places: BTreeMap<Name, usize>,
    /// By place, the last earlier place of the same name.
    shadowed: Vector<Option<usize>>,
}

impl Model for Scopes {
    ghost use Rattle.std.specs.Prelude.{List};
    ghost use Rattle.std.specs.Coded.{codes};
    ghost use Rattle.c_type_rules.specs.declared.scopes.Bound.{Bound};
    ghost use Rattle.c_type_rules.specs.Indexed.{IsIndexed};

    ghost Value = { List Bound };

    ghost coded = { Prim.hlevel codes };

    ghost view = { λ s. s.list };

    ghost invariant = { λ s. IsIndexed s.list s.places s.shadowed };
}

// Gives a name that is there its place before, or none.
fn restore(places: &mut BTreeMap<Name, usize>, name: Name, earlier: Option<usize>)
    requires { IsSome (get (slice_cmp nat_cmp) places.old name) }
    ensures { Updates (slice_cmp nat_cmp) places.old places.new name earlier }
{
    match earlier {
        Some(place) => match places.insert(name, place) {
            Ok(_) => {}
            Err(_) => unreachable!(),
        },
        None => {
            places.remove(&name);
        }
    }
}

impl Scopes {
    pub fn new(alloc: Global) -> Scopes
        ensures { result ≡ [] }
    {
        Scopes {
            list: Vector::new(alloc),
            places: BTreeMap::new(alloc),
            shadowed: Vector::new(alloc),
        }
    }

    /// How many names are bound.
    pub fn len(&self) -> usize
        ensures { result ≡ length self.now }
    {
        self.list.len()
    }

    // The last place of a name.
    fn last_place(&self, name: &Name) -> Option<usize>
        ensures { result ≡ last_place self.now name.now }
    {
        self.places.get(name).copied()
    }

    /// What was last bound to a name.
    pub fn find(&self, name: &Name) -> Option<&Bound>
        ensures { option_copied result ≡ newest name.now self.now }
    {
        match self.last_place(name) {
            None => None,
            Some(i) => self.list.get(i),
        }
    }

    /// Binds a name in the innermost scope.
    #[tactic(auto, using(crate::proofs::IndexLaws::unchanged_indexed))]
    pub fn push(&mut self, bound: Bound) -> Result<(), AllocError>
        ensures { OnOk result (self.new ≡ self.old ++ bound ∷ []) }
    {
        let key = bound.name.clone()?;
        let earlier = self.last_place(&bound.name);
        let place = self.list.len();
        self.shadowed.push(earlier)?;
        if self.list.push(bound).is_err() {
            self.shadowed.pop();
            return Err(AllocError);
        }
        match self.places.insert(key, place) {
            Ok(_) => Ok(()),
            Err(_) => {
                self.list.pop();
                self.shadowed.pop();
                Err(AllocError)
            }
        }
    }

    // Unbinds the name that was bound last, where there is one.
    #[tactic(auto, using(crate::proofs::IndexLaws::before_last))]
    fn unbind(&mut self)
        ensures { self.new ≡ take (length self.old - 1) self.old }
    {
        match self.list.pop() {
            None => {}
            Some(bound) => match self.shadowed.pop() {
                None => {}
                Some(earlier) => restore(&mut self.places, bound.name, earlier),
            },
        }
    }

    /// Leaves the scopes that were entered behind so many names.
    pub fn leave(&mut self, mark: usize)
        ensures { self.new ≡ take mark self.old }
    {
        'names: while self.len() > mark {
            self.unbind();
        }
    }
}

/// Names, in order.
#[derive(Drop)]
pub struct Names {
    list: Vector<Name>,
    /// The first place of each name.
    places: BTreeMap<Name, usize>,
}

impl Model for Names {
    ghost use Rattle.std.specs.Prelude.{List, ℕ};
    ghost use Rattle.std.specs.Coded.{codes};
    ghost use Rattle.c_type_rules.specs.Indexed.{IsNamed};

    ghost Value = { List (List ℕ) };

    ghost coded = { Prim.hlevel codes };

    ghost view = { λ s. s.list };

    ghost invariant = { λ s. IsNamed s.list s.places };
}

impl Names {
    pub fn new(alloc: Global) -> Names
        ensures { result ≡ [] }
    {
        Names {
            list: Vector::new(alloc),
            places: BTreeMap::new(alloc),
        }
    }

    /// The first place of a name.
    pub fn place(&self, name: &Name) -> Option<usize>
        ensures { result ≡ name_place self.now name.now }
    {
        self.places.get(name).copied()
    }

    /// Whether a name is among them.
    #[tactic(auto, using(crate::proofs::IndexLaws::name_laws))]
    pub fn has(&self, name: &Name) -> bool
        ensures { result ≡ has_name self.now name.now }
    {
        self.place(name).is_some()
    }

    /// All of them.
    pub fn into_vector(self) -> Vector<Name>
        ensures { result ≡ self }
    {
        let Names {
            list,
            places: _places,
        } = self;
        list
    }

    /// Adds a name at the end.
    #[tactic(auto, using(crate::proofs::IndexLaws::unchanged_named))]
    pub fn push(&mut self, name: Name) -> Result<(), AllocError>
        ensures { OnOk result (self.new ≡ self.old ++ name ∷ []) }
    {
        let key = name.clone()?;
        let earlier = self.place(&name);
        let place = self.list.len();
        self.list.push(name)?;
        if earlier.is_some() {
            return Ok(());
        }
        match self.places.insert(key, place) {
            Ok(_) => Ok(()),
            Err(_) => {
                self.list.pop();
                Err(AllocError)
            }
        }
    }
}

/// The values of `case` of a `switch`, none standing for `default`, in order.
#[derive(Drop)]
pub struct Cases {
    list: Vector<Option<u64>>,
    has_default: bool,
    values: BTreeSet<u64>,
}

impl Model for Cases {
    ghost use Rattle.std.specs.Prelude.{List, Option, ℕ};
    ghost use Rattle.std.specs.Coded.{codes};
    ghost use Rattle.c_type_rules.specs.Indexed.{AreCases};

    ghost Value = { List (Option ℕ) };

    ghost coded = { Prim.hlevel codes };

    ghost view = { λ s. s.list };

    ghost invariant = { λ s. AreCases s.list s.has_default s.values };
}

impl Cases {
    pub fn new(alloc: Global) -> Cases
        ensures { result ≡ [] }
    {
        Cases {
            list: Vector::new(alloc),
            has_default: false,
            values: BTreeSet::new(alloc),
        }
    }

    /// Whether a value is among them.
    pub fn has(&self, value: Option<u64>) -> bool
        ensures { result ≡ has_case self.now value }
    {
        match value {
            None => self.has_default,
            Some(value) => self.values.contains(&value),
        }
    }

    pub fn push(&mut self, value: Option<u64>) -> Result<(), AllocError>
        ensures { OnOk result (self.new ≡ self.old ++ value ∷ []) }
    {
        self.list.push(value)?;
        match value {
            None => {
                self.has_default = true;
                Ok(())
            }
            Some(value) => match self.values.insert(value) {
                Ok(_) => Ok(()),
                Err(_) => {
                    self.list.pop();
                    Err(AllocError)
                }
            },
        }
    }
}
