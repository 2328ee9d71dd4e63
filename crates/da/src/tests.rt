//! What `da` does over inputs and outputs in memory where one call fails. What words, files, output, status and note
//! alone tell are the rows of rows/ at the repository's top.

mod failures;
mod feeding;
