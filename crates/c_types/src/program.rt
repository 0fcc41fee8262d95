// The functions of a unit, by their names.
ghost use Rattle.std.specs.Prelude.{◌≡◌, IfOk, OnOk};
ghost use Rattle.c_types.specs.Units.{callee_of, declarations_of, definitions_of, input_unless, inputs_among, inputs_of, program_of, with_declaration, with_definition, with_input, with_name, with_prototype};

use c_parse::{Body, Item, Parameter};
use c_type_rules::Names;
use c_typed_trees::Callee;
use c_values::Kind;
use cfa::InputFunction;
use containers::{TryClone, Vector};
use fq_core::Name;
use std::alloc::{AllocError, Global};

/// The functions that are declared and nowhere defined, take no parameters and give an integer.
#[derive(Drop)]
pub struct Inputs {
    pub names: Names,
    pub list: Vector<InputFunction>,
}

/// The functions that are called by number.
#[derive(Drop)]
pub struct Program {
    /// The names of those that are defined, in the order of the source.
    pub defined: Names,
    pub inputs: Inputs,
}

// Adds a name that is not there.
fn with_name(alloc: Global, names: &mut Names, name: &Name) -> Result<(), AllocError>
    ensures { OnOk result (names.new ≡ with_name names.old name.now) }
{
    if names.has(name) {
        return Ok(());
    }
    names.push(name.try_clone(alloc)?)
}

fn with_definition(alloc: Global, names: &mut Names, item: &Item) -> Result<(), AllocError>
    ensures { OnOk result (names.new ≡ with_definition names.old item.now) }
{
    match item {
        Item::Function {
            name,
            body: Some(_),
            ..
        } => with_name(alloc, names, &name.name),
        _ => Ok(()),
    }
}

fn with_declaration(alloc: Global, names: &mut Names, item: &Item) -> Result<(), AllocError>
    ensures { OnOk result (names.new ≡ with_declaration names.old item.now) }
{
    match item {
        Item::Function { name, .. } => with_name(alloc, names, &name.name),
        _ => Ok(()),
    }
}

// Adds an input, unless it is there or is no input.
fn input_unless(
    alloc: Global,
    no: bool,
    inputs: &mut Inputs,
    name: &Name,
    kind: Kind,
) -> Result<(), AllocError>
    ensures { OnOk result (inputs.new ≡ input_unless no inputs.old name.now kind) }
{
    if no {
        return Ok(());
    }
    inputs.names.push(name.try_clone(alloc)?)?;
    inputs.list.push(InputFunction {
        name: name.try_clone(alloc)?,
        result: kind,
    })
}

fn with_prototype(
    alloc: Global,
    defined: &Names,
    inputs: &mut Inputs,
    kind: Option<Kind>,
    name: &Name,
    parameters: &[Parameter],
    body: &Option<Body>,
) -> Result<(), AllocError>
    ensures { OnOk result (inputs.new ≡ with_prototype defined.now inputs.old kind name.now parameters.now body.now) }
{
    match (kind, parameters, body) {
        (Some(kind), [], None) => {
            let there = defined.has(name) || inputs.names.has(name);
            input_unless(alloc, there, inputs, name, kind)
        }
        _ => Ok(()),
    }
}

fn with_input(
    alloc: Global,
    defined: &Names,
    inputs: &mut Inputs,
    item: &Item,
) -> Result<(), AllocError>
    ensures { OnOk result (inputs.new ≡ with_input defined.now inputs.old item.now) }
{
    match item {
        Item::Function {
            span: _,
            result: kind,
            name,
            parameters,
            body,
        } => with_prototype(
            alloc,
            defined,
            inputs,
            *kind,
            &name.name,
            parameters.as_slice(),
            body,
        ),
        _ => Ok(()),
    }
}

#[tactic(auto, using(crate::proofs::UnitLaws::fold_laws), unfolding(crate::specs::Units::definitions_of))]
fn definitions(alloc: Global, items: &[Item]) -> Result<Names, AllocError>
    ensures { IfOk result (λ names. names ≡ definitions_of items.now) }
{
    let mut names = Names::new(alloc);
    for item in items {
        with_definition(alloc, &mut names, item)?;
    }
    Ok(names)
}

/// The names of the functions that are declared, each once.
#[tactic(auto, using(crate::proofs::UnitLaws::fold_laws), unfolding(crate::specs::Units::declarations_of))]
pub(crate) fn declarations(alloc: Global, items: &[Item]) -> Result<Names, AllocError>
    ensures { IfOk result (λ names. names ≡ declarations_of items.now) }
{
    let mut names = Names::new(alloc);
    for item in items {
        with_declaration(alloc, &mut names, item)?;
    }
    Ok(names)
}

#[tactic(auto, using(crate::proofs::UnitLaws::fold_laws))]
fn inputs_among(alloc: Global, defined: &Names, items: &[Item]) -> Result<Inputs, AllocError>
    ensures { IfOk result (λ inputs. inputs ≡ inputs_among defined.now items.now) }
{
    let mut inputs = Inputs {
        names: Names::new(alloc),
        list: Vector::new(alloc),
    };
    for item in items {
        with_input(alloc, defined, &mut inputs, item)?;
    }
    Ok(inputs)
}

/// The functions that are called by number.
#[tactic(auto, unfolding(crate::specs::Units::inputs_of))]
pub(crate) fn program_of(alloc: Global, items: &[Item]) -> Result<Program, AllocError>
    ensures { IfOk result (λ p. p ≡ program_of items.now) }
{
    let defined = definitions(alloc, items)?;
    let inputs = inputs_among(alloc, &defined, items)?;
    Ok(Program { defined, inputs })
}

impl Program {
    /// How a call names a function, if it can.
    #[tactic(auto, unfolding(crate::specs::Units::callee_of))]
    pub(crate) fn callee(&self, name: &Name) -> Result<Option<Callee>, AllocError>
        ensures { IfOk result (λ c. c ≡ callee_of self.now name.now) }
    {
        match self.defined.place(name) {
            Some(place) => Ok(Some(Callee::Defined(number(place)?))),
            None => match self.inputs.names.place(name) {
                Some(place) => Ok(Some(Callee::Input(number(place)?))),
                None => Ok(None),
            },
        }
    }
}

fn number(place: usize) -> Result<u32, AllocError>
    ensures { IfOk result (λ n. n ≡ place) }
{
    if place <= u32::MAX as usize {
        Ok(place as u32)
    } else {
        Err(AllocError)
    }
}
