//! Tests of what no script reaches: sockets, files, and disks that stop. All other rows are scripts of `as2_script`.
#![tactic(auto)]

#[cfg(test)]
mod agreements;
#[cfg(test)]
mod desk;
#[cfg(test)]
mod files;
#[cfg(test)]
mod made;
#[cfg(test)]
mod migrated;
#[cfg(test)]
mod outbox;
#[cfg(test)]
mod texts;
