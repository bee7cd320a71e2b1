// Examples, run as tests.
#![tactic(auto)]

#[cfg(test)]
mod answers;
#[cfg(test)]
mod edges;
#[cfg(test)]
mod intervals;
#[cfg(test)]
mod policies;
#[cfg(test)]
mod records;
#[cfg(test)]
mod refusals;
#[cfg(test)]
mod searches;
#[cfg(test)]
mod tables;
