#![tactic(auto)]

// The worked cases, run as tests: each is proved to be safe and to end, and then run.
#[cfg(test)]
mod outcomes;
#[cfg(test)]
mod policies;
#[cfg(test)]
mod texts;
#[cfg(test)]
mod words;
