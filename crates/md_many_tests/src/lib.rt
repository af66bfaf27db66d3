//! Tests of md_many: attempts at lines over a store that refuses as a list says, two callers in
//! threads, and rounds of one caller. And of lines that are fed.
#![tactic(auto)]

#[cfg(test)]
mod attempts;
#[cfg(test)]
mod beside;
#[cfg(test)]
mod compared;
#[cfg(test)]
mod fed_lines;
#[cfg(test)]
mod gates;
#[cfg(test)]
mod lines;
#[cfg(test)]
mod looks;
#[cfg(test)]
mod puts;
#[cfg(test)]
mod refusing;
#[cfg(test)]
mod rounds;
#[cfg(test)]
mod side_by_side;
#[cfg(test)]
mod until;
