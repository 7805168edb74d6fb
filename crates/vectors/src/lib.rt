//! The worked examples of the rule book, executed.

#![tactic(auto)]

#[cfg(test)]
mod acts;
#[cfg(test)]
mod calls;
#[cfg(test)]
mod each_status;
#[cfg(test)]
mod label_numbers;
#[cfg(test)]
mod packets;
#[cfg(test)]
mod queues;
#[cfg(test)]
mod script;
#[cfg(test)]
mod sessions;
#[cfg(test)]
mod sites;
