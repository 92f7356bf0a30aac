//! Whether a certificate holds.

ghost use Rattle.std.specs.Prelude.{◌≡◌, ◌↔◌, None};
ghost use Rattle.mc_cert.specs.Rules.{breach_of, first_broken};
ghost use Rattle.mc_cert_text.specs.Certs.{IsCertIn, plain_cert};
ghost use Rattle.mc_cert_text.specs.Holding.{HoldsOf, rules_of};

use crate::cert::Cert;
use mc_cert::{Verdict, check_bound, check_flow, check_refuter, check_stuck};
use mc_graph::OpenGraph;

/// Whether a certificate holds of a graph; else the first row that breaks a rule, and the least rule that it breaks. It takes
/// no memory.
pub fn check_cert<const H: usize>(g: &OpenGraph<H>, cert: &Cert) -> Verdict
    requires { IsCertIn g.now (plain_cert cert.now) }
    ensures first { breach_of result ≡ first_broken 1 (rules_of g.now (plain_cert cert.now)) }
    ensures yes { (breach_of result ≡ None) ↔ HoldsOf g.now (plain_cert cert.now) }
{
    match cert {
        Cert::Flow(flow) => check_flow(g, flow),
        Cert::NoFlow(refuter) => check_refuter(g, refuter),
        Cert::NoCausal(stuck) => check_stuck(g, stuck),
        Cert::Least(bound) => check_bound(g, bound),
    }
}
