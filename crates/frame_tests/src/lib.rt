//! Tests of the public calls. They stand in a crate of their own, since a crate with tests is
//! proved twice.
//!
//! Of frames: cleaning, latches that are held, passable gates, moving over a set of gates. Of their
//! flow: the network, exact labels, pulses and runs by crews of several sizes, cuts, routes. Of
//! runs: files of certificates, frames by crews, from bytes to bytes, simulation, many files. Of
//! files: reading and writing circuits in both spellings, the order that gates take, buffered
//! writing, devices that fail. Of registers: moves backward, latches that are opened, the judge of
//! moves past an enable, latches that are guessed to be equal.
#![tactic(auto)]

#[cfg(test)]
mod any_spelling;
#[cfg(test)]
mod arcs;
#[cfg(test)]
mod batch_counter;
#[cfg(test)]
mod batch_drawing;
#[cfg(test)]
mod batch_files;
#[cfg(test)]
mod batch_outcomes;
#[cfg(test)]
mod between_pulses;
#[cfg(test)]
mod calls;
#[cfg(test)]
mod certificate_texts;
#[cfg(test)]
mod circuits;
#[cfg(test)]
mod cleaned;
#[cfg(test)]
mod counting_gate;
#[cfg(test)]
mod cuts;
#[cfg(test)]
mod devices;
#[cfg(test)]
mod distances;
#[cfg(test)]
mod errors;
#[cfg(test)]
mod failing_devices;
#[cfg(test)]
mod faults;
#[cfg(test)]
mod first_pulses;
#[cfg(test)]
mod graphs;
#[cfg(test)]
mod guessed_readings;
#[cfg(test)]
mod held;
#[cfg(test)]
mod held_gate;
#[cfg(test)]
mod held_moves;
#[cfg(test)]
mod judged_registers;
#[cfg(test)]
mod lanes;
#[cfg(test)]
mod least_sets;
#[cfg(test)]
mod meeting_gates;
#[cfg(test)]
mod moves;
#[cfg(test)]
mod nets;
#[cfg(test)]
mod networks;
#[cfg(test)]
mod order;
#[cfg(test)]
mod phase_gates;
#[cfg(test)]
mod pieces;
#[cfg(test)]
mod pool_gate;
#[cfg(test)]
mod readers;
#[cfg(test)]
mod retiming;
#[cfg(test)]
mod runs;
#[cfg(test)]
mod shared_work;
#[cfg(test)]
mod simulating;
#[cfg(test)]
mod starts;
#[cfg(test)]
mod unit_parts;
#[cfg(test)]
mod units_alone;
#[cfg(test)]
mod watched;
#[cfg(test)]
mod wide_circuits;
#[cfg(test)]
mod wide_runs;
#[cfg(test)]
mod worked_backward;
#[cfg(test)]
mod worked_networks;
#[cfg(test)]
mod worked_openings;
#[cfg(test)]
mod worked_pulses;
#[cfg(test)]
mod workers;
#[cfg(test)]
mod writing;
#[cfg(test)]
mod wrong_drafts;
