//! What follows from the definitions of runs: how the states of an input end, when it leaves bounds, and between which
//! inputs a run makes no difference (ISO/IEC 9899:2011, 5.1.2.3; FQL: Holzer, Schallhart, Tautschnig, Veith, VMCAI 2009
//! and ASE 2010).
//!
//! It has no code. The definitions are in specs/: `Ends` says in what the states of an input end, `Traces` along which
//! edges it runs, `Leaving` when it leaves bounds, `Alike` which inputs read alike along a run; `Laws` has the laws. It stands on `c_meaning` for runs, on
//! `path_runner` for their records and on `hits` for inputs that hit goals. The layers that show that bounds suffice, find
//! least inputs, keep traces and compare runs with the meaning of the syntax tree cite it. Start at [`laws`].

pub mod laws;
