//! Tests of the library. One makes the calls that standard input lists, or those of the table, and
//! prints what each returns. The others are of what needs a custom type: stages, languages,
//! tokenizers and functions that a user passes to the library, and readers and writers that fail;
//! and of what the uses of the library return.
#![tactic(auto)]

#[cfg(test)]
mod answer;
#[cfg(test)]
mod answers;
#[cfg(test)]
mod begun;
#[cfg(test)]
mod call;
#[cfg(test)]
mod content_rows;
#[cfg(test)]
mod devices;
#[cfg(test)]
mod handed_in;
#[cfg(test)]
mod index_rows;
#[cfg(test)]
mod indexes;
#[cfg(test)]
mod languages;
#[cfg(test)]
mod listed;
#[cfg(test)]
mod long_tokens;
#[cfg(test)]
mod options;
#[cfg(test)]
mod own;
#[cfg(test)]
mod own_language;
#[cfg(test)]
mod pipelines;
#[cfg(test)]
mod rows;
#[cfg(test)]
mod search;
#[cfg(test)]
mod stage_rows;
#[cfg(test)]
mod stages;
#[cfg(test)]
mod stores;
#[cfg(test)]
mod subject;
#[cfg(test)]
mod table;
#[cfg(test)]
mod text_lists;
#[cfg(test)]
mod texts;
#[cfg(test)]
mod tries;
#[cfg(test)]
mod uses;
