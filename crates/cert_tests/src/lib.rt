//! Certificates read, written, trimmed and checked over folders in memory, and printed lines.
#![tactic(auto)]

#[cfg(test)]
mod bytes;
#[cfg(test)]
mod cases;
#[cfg(test)]
mod checks;
#[cfg(test)]
mod equals;
#[cfg(test)]
mod halved;
#[cfg(test)]
mod of_cert_trim;
#[cfg(test)]
mod of_cert_upgrade;
#[cfg(test)]
mod of_report;
#[cfg(test)]
mod second;
#[cfg(test)]
mod turned;
#[cfg(test)]
mod worked;
