// The choice writer's way of working out: what a variable, a constant, a cell and a loop of the plain machine come to, with the numbers that the
// reduced run takes for choices pushed onto a lent buffer. All of it is for our crates above, which see to what is required here.
#![tactic(auto)]

pub mod bounds; // bounds.rt: start and end of a loop
pub mod leaves; // leaves.rt: variables, constants and cells, with their numbers
mod marks; // marks.rt: what decides whether the reduced run takes a choice
pub mod pushes; // pushes.rt: a number or a byte pushed onto a buffer
