// Tables of cases, to be run: a crate of their own, since a crate with tests is proved twice.
#![tactic(auto)]

#[cfg(test)]
mod judged;
#[cfg(test)]
mod lines;
