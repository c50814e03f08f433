#![tactic(auto)]

// The worked cases of tables and forwarding, run as tests.
#[cfg(test)]
mod checks;
#[cfg(test)]
mod forwards;
#[cfg(test)]
mod memories;
#[cfg(test)]
mod replayed;
#[cfg(test)]
mod through;
