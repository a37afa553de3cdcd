// What is told of profile texts, good and damaged: for each text here the report that the rules of the format ask for.
#![tactic(auto)]

#[cfg(test)]
mod bytes;
#[cfg(test)]
mod doubles;
#[cfg(test)]
mod ends;
#[cfg(test)]
mod keywords;
#[cfg(test)]
mod lent;
#[cfg(test)]
mod limits;
#[cfg(test)]
mod names;
#[cfg(test)]
mod numbers;
#[cfg(test)]
mod readings;
#[cfg(test)]
mod tables;
#[cfg(test)]
mod told;
