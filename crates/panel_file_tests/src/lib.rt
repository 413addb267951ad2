// Tests of panel files, in a crate of their own so that they do not have the files' crate proved twice.
#![tactic(auto)]

#[cfg(test)]
mod tests;
