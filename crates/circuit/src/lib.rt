//! Truth values that gates join: recorded ones, which are `bool`, and literals of a Boolean circuit.
//!
//! A world is a list of truth values. A [`Truth`] has bits, each of which holds or doesn't in each world, and gates that
//! make a bit of others. Its law, the contract of the trait, is that in every world the new bit holds as its parts do, and
//! that every older bit is one still and holds as before, also where a gate found no memory. Whoever is generic over a
//! `Truth` is proved once for runs that were recorded ([`Plain`]) and for runs that a circuit describes ([`Circuit`],
//! an and-inverter graph: gates after Tseitin 1968, inputs and conjunctions with signs). A truth also says how gates make
//! it grow: a circuit keeps its gates and has more behind them, none of which is an input. A circuit shows its gates by
//! the numbers of their wires, and later wires can be cut off. No gate is made of a constant, of one wire alone or of two
//! literals that have one already (structural hashing, as Kuehlmann and Krohm use it, DAC 1997).
//!
//! The definitions are in specs/: `Truth` (worlds, and what a change of a truth leaves as it was), `Wires` (what a
//! circuit's literals hold in a world), `Growth` (circuits that have more gates), `Sharing` (the literal that a conjunction
//! comes to, and the gates after it) and `Bits` (rows of bits over gates). The crate stands on std and `indexmap`, whose
//! set holds the gates in order.
#![tactic(auto)]

mod and_inverter;
mod lit;
mod plain;
mod truth;

pub use and_inverter::Circuit;
pub use lit::{Gate, Lit};
pub use plain::Plain;
pub use truth::{Memory, Truth};
