//! The texts of certificates, which stand behind a graph: a flow, a refuter, a stuck set, or a bound of depth.
//!
//! `cert` has the type, `kept_flow`, `kept_refuter`, `kept_stuck` and `kept_least` the kinds of their sections and what is kept
//! of the rows that are read, `read` how a section is read, `print` the canonical text, `check` whether a certificate holds of
//! its graph, and `laws` what is proved of texts.
#![tactic(auto)]

mod cert;
mod check;
mod kept_flow;
mod kept_least;
mod kept_refuter;
mod kept_stuck;
mod laws;
mod print;
mod read;
#[cfg(test)]
mod tests;

pub use cert::Cert;
pub use check::check_cert;
pub use laws::{cert_texts_are_read, cert_texts_differ};
pub use print::print_cert;
pub use read::read_cert;
