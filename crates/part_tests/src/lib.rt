// Tests, as another crate would write them, of the methods of `Edition`, and of those of `Checkpoint` that are parts of the test of a shape.

#![tactic(auto)]

#[cfg(test)]
mod editions;
#[cfg(test)]
mod shapes;
