//! What the canonical texts of certificates are, each law on the contract of a function that does nothing.

ghost use Rattle.std.specs.Prelude.{◌≡◌, [], None, drop};
ghost use Rattle.mc_lex.specs.Lines.{lines_of};
ghost use Rattle.mc_model.specs.Graph.{OpenGraph, IsOpenGraph};
ghost use Rattle.mc_text.specs.Judged.{Place, first_in_section, section_lines, behind_section};
ghost use Rattle.mc_cert_text.specs.Certs.{PlainCert, IsCertOf, kind_of_cert};
ghost use Rattle.mc_cert_text.specs.Kinds.{cert_rules, cert_in};
ghost use Rattle.mc_cert_text.specs.Canonical.{cert_text};

use mc_rows::rows_are_read;

/// Reading behind a graph takes the whole canonical text of a certificate that fits it, and gives the certificate back.
pub fn cert_texts_are_read()
    ensures clean { (g : OpenGraph) (cert : PlainCert) (end : Place) → IsOpenGraph g → IsCertOf g cert
        → first_in_section (cert_rules (kind_of_cert cert) g.names) []
        (drop 1 (lines_of (cert_text g.names cert))) end ≡ None }
    ensures whole { (g : OpenGraph) (cert : PlainCert) → IsOpenGraph g → IsCertOf g cert
        → behind_section (drop 1 (lines_of (cert_text g.names cert))) ≡ [] }
    ensures same { (g : OpenGraph) (cert : PlainCert) → IsOpenGraph g → IsCertOf g cert
        → cert_in (kind_of_cert cert) g.names (section_lines (drop 1 (lines_of (cert_text g.names cert)))) ≡ cert }
{
    rows_are_read();
}

/// Two certificates that fit a graph have two canonical texts.
pub fn cert_texts_differ()
    ensures { (g : OpenGraph) (c d : PlainCert) → IsOpenGraph g → IsCertOf g c → IsCertOf g d
        → cert_text g.names c ≡ cert_text g.names d → c ≡ d }
{
    cert_texts_are_read();
}
