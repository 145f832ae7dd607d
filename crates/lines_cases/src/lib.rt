// Tests of the words and lines that the program reads and writes, on examples.
#![tactic(auto)]

#[cfg(test)]
mod explained;
#[cfg(test)]
mod listed;
#[cfg(test)]
mod outlined;
#[cfg(test)]
mod recorded;
#[cfg(test)]
mod told;
#[cfg(test)]
mod traced;
#[cfg(test)]
mod worded;
