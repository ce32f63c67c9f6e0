//! Tests that cross crates: folders are woven over objects in memory, and what is printed and put
//! is compared with what the project's worked examples say.
#![tactic(auto)]

#[cfg(test)]
mod assembler;
#[cfg(test)]
mod calls;
#[cfg(test)]
mod cases;
#[cfg(test)]
mod class_files;
#[cfg(test)]
mod disassembler;
#[cfg(test)]
mod files;
#[cfg(test)]
mod limits;
#[cfg(test)]
mod outside;
#[cfg(test)]
mod pairs;
#[cfg(test)]
mod rules;
#[cfg(test)]
mod woven;
