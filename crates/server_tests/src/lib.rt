//! Tests of what no contract states and no worked trace shows: what threads do at the same time,
//! sockets, allocations, reads and writes that fail, limits of a desk, and public calls that no
//! command makes. They call only public functions. Most tests of a desk are one of the scripts in
//! `desk_scripts`; start there.
#![tactic(auto)]

#[cfg(test)]
mod allocation_failures;
#[cfg(test)]
mod book_tests;
#[cfg(test)]
mod claim_tests;
#[cfg(test)]
mod closure_tests;
#[cfg(test)]
mod command_line_tests;
#[cfg(test)]
mod concurrent_offer_tests;
#[cfg(test)]
mod delivery_tests;
#[cfg(test)]
mod desk_scripts;
#[cfg(test)]
mod desk_tests;
#[cfg(test)]
mod fixtures;
#[cfg(test)]
mod meeting;
#[cfg(test)]
mod name_tests;
#[cfg(test)]
mod offline_tests;
#[cfg(test)]
mod public_surface;
#[cfg(test)]
mod question_order_tests;
#[cfg(test)]
mod segment_edges;
#[cfg(test)]
mod session_tests;
#[cfg(test)]
mod socket_tests;
#[cfg(test)]
mod streams;
#[cfg(test)]
mod table_tests;
#[cfg(test)]
mod test_desk;
#[cfg(test)]
mod traces;
#[cfg(test)]
mod worker_order_tests;
#[cfg(test)]
mod worker_tests;
#[cfg(test)]
mod workers;
