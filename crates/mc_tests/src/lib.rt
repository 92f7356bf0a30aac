//! Tests of the command: `serve` on documents in memory, a table for each command, and what the calls below it say of the
//! same documents. There is no code here beside them.
//!
//! A document is written on one line, as in `in a ; j a 1 ; out a`: a `;` stands for the end of a line. `served` has what reads
//! it and compares. `hostile` has reads and writes that fail and documents that are cut, `limits` each limit at its number and
//! one past it, `refused` a document for each fault.
#![tactic(auto)]

#[cfg(test)]
mod bounded;
#[cfg(test)]
mod certified;
#[cfg(test)]
mod compiled;
#[cfg(test)]
mod composed;
#[cfg(test)]
mod documents;
#[cfg(test)]
mod found;
#[cfg(test)]
mod hostile;
#[cfg(test)]
mod limits;
#[cfg(test)]
mod printed;
#[cfg(test)]
mod ran;
#[cfg(test)]
mod refused;
#[cfg(test)]
mod rewritten;
#[cfg(test)]
mod served;
#[cfg(test)]
mod stepped;
#[cfg(test)]
mod translated;
