//! When the run of an input hits a goal of a plan (FQL: Holzer, Schallhart, Tautschnig, Veith, VMCAI 2009 and ASE 2010).
//!
//! It has no code. The definitions are in specs/: `Hits` says of a recorded run which goals it hits, by `patterns`' `Match`
//! alone; `Inputs` says of an input that its run hits a goal, with no limit, or within bounds. It stands on `goals` for
//! plans, on `path_runner` for recorded runs and on `c_meaning` for runs, and the layers that measure, search and check
//! cite it. Start at [`laws`].

pub mod laws;
