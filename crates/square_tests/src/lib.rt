//! What of fields, codes, units, messages, proofs, samples and generated blocks no proof can show: values that
//! other programs give, and calls that succeed with ample memory. What the program tells of them over
//! files is shown by the rows of rows/ at the repository's top.
#![tactic(auto)]

#[cfg(test)]
mod answers;
#[cfg(test)]
mod cells;
#[cfg(test)]
mod clashes;
#[cfg(test)]
mod codewords;
#[cfg(test)]
mod empties;
#[cfg(test)]
mod fields;
#[cfg(test)]
mod followers;
#[cfg(test)]
mod generated;
#[cfg(test)]
mod headers;
#[cfg(test)]
mod inputs;
#[cfg(test)]
mod namespaces;
#[cfg(test)]
mod sequences;
#[cfg(test)]
mod transforms;
#[cfg(test)]
mod trees;
#[cfg(test)]
mod units;
