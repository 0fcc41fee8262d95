//! The tests of `c_lower`: sources with the nodes and edges that they have, worked by hand from the table of docs/GRAPH.md.
#![tactic(auto)]

#[cfg(test)]
mod tests;
