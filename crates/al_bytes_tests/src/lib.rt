//! Tests of bytes and records: the layer from al_base to al_block. They stand in a crate of their own,
//! since a crate with tests is proved twice.
#![tactic(auto)]

#[cfg(test)]
mod base;
#[cfg(test)]
mod block;
#[cfg(test)]
mod digest;
#[cfg(test)]
mod disk;
#[cfg(test)]
mod msgpack;
#[cfg(test)]
mod record;
#[cfg(test)]
mod txn;
