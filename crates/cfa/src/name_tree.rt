// Variables by their names.
ghost use Rattle.std.specs.Prelude.{◌≡◌, ◌∷◌, ◌++◌, [], ℕ, List, IfOk, Some, true, false, if◌then◌else◌};
ghost use Rattle.std.specs.Option.{option_copied};
ghost use Rattle.std.specs.Str.{bytes_eq};
ghost use Rattle.cfa.specs.Names.{hash_of, hashed, visible};
ghost use Rattle.cfa.specs.NameTree.{HasAlso, IsFork, in_part, is_low};

use crate::parts::Variable;
use containers::TryClone;
use std::alloc::{AllocError, Global};
use std::marker::Model;
use std::rc::Rc;

/// A factor that spreads what is multiplied by it over all numbers of 64 bits: 2^64 over the golden ratio.
const FACTOR: u64 = 11_400_714_819_323_198_485;

/// A hash with one byte more, which all its bits depend on.
fn hashed(hash: u64, byte: u8) -> u64
    ensures { result ≡ hashed hash byte }
{
    let spread = hash.wrapping_add(byte as u64).wrapping_mul(FACTOR);
    spread ^ spread >> 32
}

/// A number that a name gives. Nothing but time depends on which one.
pub(crate) fn hash_of(name: &[u8]) -> u64
    ensures { result ≡ hash_of name.now }
{
    name.iter().fold(0u64, |hash, byte| hashed(hash, *byte))
}

/// Variables of different names, in a search tree by the bits of the names' hashes. Trees share their parts. Contracts see
/// a list of the variables.
#[derive(Drop)]
pub(crate) struct NameTree {
    /// The bit that tells the parts apart.
    place: u64,
    hash: u64,
    variable: Rc<Variable>,
    /// Those of other names whose hashes haven't the bit.
    low: Option<Rc<NameTree>>,
    /// Those of other names whose hashes have it.
    high: Option<Rc<NameTree>>,
}

impl Model for NameTree {
    ghost use Rattle.std.specs.Prelude.{List, ◌∷◌, ◌++◌, length};
    ghost use Rattle.cfa.specs.declared.parts.Variable.{Variable};
    ghost use Rattle.cfa.specs.NameTree.{IsFork, in_part};

    ghost Value = { List Variable };

    ghost view = { λ it. it.variable.value ∷ (in_part it.low ++ in_part it.high) };

    ghost invariant = { λ it. IsFork it.place it.hash it.variable.value (in_part it.low) (in_part it.high) };

    ghost size = { length };

    ghost use Rattle.std.proofs.Common.{arith, length-append};

    ghost size_decreases = { λ it h. Prim.grind (arith, length-append) };
}

/// The same variables, all of them shared.
pub(crate) fn shared(part: &Option<Rc<NameTree>>) -> Result<Option<Rc<NameTree>>, AllocError>
    ensures { IfOk result (λ copy. in_part copy ≡ in_part part.now) }
{
    match part {
        None => Ok(None),
        Some(tree) => Ok(Some(tree.clone()?)),
    }
}

/// Whether a variable has a name, by the hashes of both first.
fn has_name(own: u64, variable: &Variable, hash: u64, name: &[u8]) -> bool
    requires own { own ≡ hash_of variable.now.name }
    requires hash { hash ≡ hash_of name.now }
    ensures { result ≡ bytes_eq variable.now.name name.now }
{
    own == hash && variable.name.bytes() == name
}

/// A tree of one variable.
fn leaf(place: u64, hash: u64, variable: &Rc<Variable>) -> Result<NameTree, AllocError>
    requires { hash ≡ hash_of variable.now.value.name }
    ensures { IfOk result (λ tree. tree ≡ variable.now.value ∷ []) }
{
    Ok(NameTree {
        place,
        hash,
        variable: variable.clone()?,
        low: None,
        high: None,
    })
}

/// Whether a name of a hash is in the low part of a fork.
fn is_low(place: u64, hash: u64) -> bool
    ensures { result ≡ is_low place hash }
{
    hash & place == 0
}

/// The part of a fork in which a name of a hash may be.
fn side<'a>(
    place: u64,
    hash: u64,
    low: &'a Option<Rc<NameTree>>,
    high: &'a Option<Rc<NameTree>>,
) -> &'a Option<Rc<NameTree>>
    ensures near { is_low place hash ≡ true → result.now ≡ low.now }
    ensures far { is_low place hash ≡ false → result.now ≡ high.now }
{
    if is_low(place, hash) { low } else { high }
}

/// A fork of parts, where the one for a hash has one variable more.
fn grown(
    place: u64,
    own: u64,
    variable: &Rc<Variable>,
    hash: u64,
    more: Rc<NameTree>,
    low: &Option<Rc<NameTree>>,
    high: &Option<Rc<NameTree>>,
) -> Result<NameTree, AllocError>
    requires near { is_low place hash ≡ true → IsFork place own variable.now.value more.value (in_part high.now) }
    requires far { is_low place hash ≡ false → IsFork place own variable.now.value (in_part low.now) more.value }
    ensures { IfOk result (λ tree. (is_low place hash ≡ true → tree ≡ variable.now.value ∷ (more.value ++ in_part high.now)) × (is_low place hash ≡ false → tree ≡ variable.now.value ∷ (in_part low.now ++ more.value))) }
{
    let variable = variable.clone()?;
    if is_low(place, hash) {
        Ok(NameTree {
            place,
            hash: own,
            variable,
            low: Some(more),
            high: shared(high)?,
        })
    } else {
        Ok(NameTree {
            place,
            hash: own,
            variable,
            low: shared(low)?,
            high: Some(more),
        })
    }
}

impl NameTree {
    /// The variable with a name, whose hash is given with it.
    fn find(&self, hash: u64, name: &[u8]) -> Option<&Variable>
        requires { hash ≡ hash_of name.now }
        ensures { option_copied result ≡ visible name.now self.now }
    {
        if has_name(self.hash, &self.variable, hash, name) {
            return Some(&self.variable);
        }
        match side(self.place, hash, &self.low, &self.high) {
            None => None,
            Some(tree) => tree.find(hash, name),
        }
    }

    /// The variables and one more, which takes the place of one of its name.
    fn with(
        &self,
        alloc: Global,
        hash: u64,
        variable: &Rc<Variable>,
    ) -> Result<NameTree, AllocError>
        requires { hash ≡ hash_of variable.now.value.name }
        ensures { IfOk result (λ tree. HasAlso self.now variable.now.value tree) }
    {
        if has_name(self.hash, &self.variable, hash, variable.name.bytes()) {
            return Ok(NameTree {
                place: self.place,
                hash,
                variable: variable.clone()?,
                low: shared(&self.low)?,
                high: shared(&self.high)?,
            });
        }
        let more = match side(self.place, hash, &self.low, &self.high) {
            None => leaf(self.place << 1, hash, variable)?,
            Some(tree) => tree.with(alloc, hash, variable)?,
        };
        let more = Rc::new(alloc, more)?;
        grown(
            self.place,
            self.hash,
            &self.variable,
            hash,
            more,
            &self.low,
            &self.high,
        )
    }
}

/// What a name stands for in a part.
pub(crate) fn find<'a>(part: &'a Option<Rc<NameTree>>, name: &[u8]) -> Option<&'a Variable>
    ensures { option_copied result ≡ visible name.now (in_part part.now) }
{
    match part {
        None => None,
        Some(tree) => tree.find(hash_of(name), name),
    }
}

/// A part with one variable more, which takes the place of one of its name. What is as before is shared.
pub(crate) fn with(
    alloc: Global,
    variable: &Variable,
    part: &Option<Rc<NameTree>>,
) -> Result<Option<Rc<NameTree>>, AllocError>
    ensures { IfOk result (λ more. HasAlso (in_part part.now) variable.now (in_part more)) }
{
    let hash = hash_of(variable.name.bytes());
    let variable = Rc::new(alloc, variable.try_clone(alloc)?)?;
    let tree = match part {
        None => leaf(1, hash, &variable)?,
        Some(tree) => tree.with(alloc, hash, &variable)?,
    };
    Ok(Some(Rc::new(alloc, tree)?))
}
