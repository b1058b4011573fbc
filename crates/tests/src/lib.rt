// Examples of the calls of all crates, as tests. They stand in one crate, so that no other has to be proved once more with its tests.
#![tactic(auto)]

#[cfg(test)]
mod bed_words;
#[cfg(test)]
mod coded_calls;
#[cfg(test)]
mod drives;
#[cfg(test)]
mod figures_run;
#[cfg(test)]
mod kinds;
#[cfg(test)]
mod plans;
#[cfg(test)]
mod ramps;
#[cfg(test)]
mod scripts;
#[cfg(test)]
mod smoothings;
#[cfg(test)]
mod texts;
#[cfg(test)]
mod whole_plans;
