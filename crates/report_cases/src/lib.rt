// Tests of packed lists, of outcomes and of printed reports, on examples.
#![tactic(auto)]

#[cfg(test)]
mod loaded;
#[cfg(test)]
mod outcomes;
#[cfg(test)]
mod printed;
