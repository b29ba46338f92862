// Tests of the libraries, on examples.
#![tactic(auto)]

#[cfg(test)]
mod applying;
#[cfg(test)]
mod formats;
#[cfg(test)]
mod given;
#[cfg(test)]
mod histories;
#[cfg(test)]
mod opening;
#[cfg(test)]
mod orders;
#[cfg(test)]
mod spans;
#[cfg(test)]
mod stores;
