//! The kinds of document that a command takes.

ghost use Rattle.std.specs.Prelude.{◌≡◌};
ghost use Rattle.mc_document.specs.Documents.{unless_taken};
ghost use Rattle.mc_document.specs.Second.{unless_stands};

use mc_lex::Kind;
use mc_text::{Fault, Form, Kinds, Turning};

/// The kinds of document that a command takes. A change or a trace may stand behind a pattern, and a certificate behind a
/// graph; with `cert` a certificate must stand there, with `trace` a trace, and with `two` a second pattern.
#[derive(Clone, Copy, Debug, PartialEq, Eq)]
pub struct Takes {
    pub circuit: bool,
    pub pattern: bool,
    pub graph: bool,
    pub cert: bool,
    pub trace: bool,
    pub two: bool,
    pub gates: bool,
}

impl Takes {
    ghost use Rattle.mc_document.specs.Documents.{certified_graphs, certified_kinds, circuits_and_patterns};
    ghost use Rattle.mc_document.specs.Documents.{every_kind, every_source, no_kind, only_circuits, only_gates};
    ghost use Rattle.mc_document.specs.Documents.{patterns_and_graphs, two_patterns};
    ghost use Rattle.mc_document.specs.Second.{is_due_behind_pattern};

    /// No document at all.
    fn none() -> Takes
        ensures { result ≡ no_kind }
    {
        Takes {
            circuit: false,
            pattern: false,
            graph: false,
            cert: false,
            trace: false,
            two: false,
            gates: false,
        }
    }

    /// Circuits alone.
    pub fn circuits() -> Takes
        ensures { result ≡ only_circuits }
    {
        Takes {
            circuit: true,
            ..Takes::none()
        }
    }

    /// Circuits and patterns.
    pub fn circuits_and_patterns() -> Takes
        ensures { result ≡ circuits_and_patterns }
    {
        Takes {
            pattern: true,
            ..Takes::circuits()
        }
    }

    /// Patterns and graphs.
    pub fn patterns_and_graphs() -> Takes
        ensures { result ≡ patterns_and_graphs }
    {
        Takes {
            pattern: true,
            graph: true,
            ..Takes::none()
        }
    }

    /// Circuits, patterns and graphs.
    pub fn sources() -> Takes
        ensures { result ≡ every_source }
    {
        Takes {
            graph: true,
            ..Takes::circuits_and_patterns()
        }
    }

    /// Every kind of document that there is, two patterns aside.
    pub fn all() -> Takes
        ensures { result ≡ every_kind }
    {
        Takes {
            gates: true,
            ..Takes::sources()
        }
    }

    /// Graphs, each with a certificate.
    pub fn certified_graphs() -> Takes
        ensures { result ≡ certified_graphs }
    {
        Takes {
            graph: true,
            cert: true,
            ..Takes::none()
        }
    }

    /// Graphs, each with a certificate, and patterns, each with a trace.
    pub fn certified() -> Takes
        ensures { result ≡ certified_kinds }
    {
        Takes {
            cert: true,
            trace: true,
            ..Takes::patterns_and_graphs()
        }
    }

    /// Patterns, each with a second pattern.
    pub fn two_patterns() -> Takes
        ensures { result ≡ two_patterns }
    {
        Takes {
            pattern: true,
            two: true,
            ..Takes::none()
        }
    }

    /// Lists of gates alone.
    pub fn gates() -> Takes
        ensures { result ≡ only_gates }
    {
        Takes {
            gates: true,
            ..Takes::none()
        }
    }

    /// Whether something must stand behind a pattern.
    pub(crate) fn is_due_behind_pattern(&self) -> bool
        ensures { result ≡ is_due_behind_pattern self.now }
    {
        self.two || self.trace
    }
}

/// The fault of a kind that is not taken.
fn unless_taken(taken: bool) -> Option<Fault>
    ensures { result ≡ unless_taken taken }
{
    if taken {
        None
    } else {
        Some(Fault::KindNotTaken)
    }
}

/// The fault of a kind that may not stand behind a first section.
fn unless_stands(stands: bool) -> Option<Fault>
    ensures { result ≡ unless_stands stands }
{
    if stands { None } else { Some(Fault::BehindEnd) }
}

/// The kinds with which a document may begin.
#[derive(Clone, Copy)]
pub(crate) struct First {
    pub(crate) takes: Takes,
}

impl Kinds for First {
    ghost use Rattle.mc_text.specs.declared.fault.Fault.TheVariants.{NoKind};
    ghost use Rattle.mc_document.specs.Documents.{first_form, refused_kind};

    ghost refused = { λ first. refused_kind first.takes };

    ghost unknown = { λ _. NoKind };

    ghost form = { λ _. first_form };

    fn refused(&self, kind: Kind) -> Option<Fault> {
        match kind {
            Kind::Circuit => unless_taken(self.takes.circuit),
            Kind::Pattern => unless_taken(self.takes.pattern),
            Kind::Graph => unless_taken(self.takes.graph),
            Kind::Gates => unless_taken(self.takes.gates),
            _ => Some(Fault::NoKind),
        }
    }

    fn unknown(&self) -> Fault {
        Fault::NoKind
    }

    fn form(&self, kind: Kind) -> Form {
        match kind {
            Kind::Circuit => Form {
                second: false,
                turning: Turning::Said,
            },
            Kind::Pattern | Kind::Graph => Form {
                second: true,
                turning: Turning::Said,
            },
            _ => Form::plain(),
        }
    }
}

/// The kinds of section that may stand behind a pattern with angles of `H` steps in half a turn.
#[derive(Clone, Copy)]
pub(crate) struct BehindPattern<const H: usize> {
    pub(crate) takes: Takes,
}

impl<const H: usize> Kinds for BehindPattern<H> {
    ghost use Rattle.mc_text.specs.declared.fault.Fault.TheVariants.{BehindEnd};
    ghost use Rattle.mc_document.specs.Second.{form_behind_pattern, refused_behind_pattern};

    ghost refused = { λ behind. refused_behind_pattern behind.takes };

    ghost unknown = { λ _. BehindEnd };

    ghost form = { λ _. form_behind_pattern H };

    fn refused(&self, kind: Kind) -> Option<Fault> {
        match kind {
            Kind::Change => unless_stands(!self.takes.is_due_behind_pattern()),
            Kind::Trace => unless_stands(!self.takes.two),
            Kind::Pattern => unless_stands(self.takes.two),
            _ => Some(Fault::BehindEnd),
        }
    }

    fn unknown(&self) -> Fault {
        Fault::BehindEnd
    }

    fn form(&self, kind: Kind) -> Form {
        match kind {
            Kind::Change => Form {
                second: true,
                turning: Turning::Unsaid,
            },
            Kind::Pattern => Form {
                second: true,
                turning: Turning::Like(H),
            },
            _ => Form::plain(),
        }
    }
}

/// The kinds of section that may stand behind a graph.
#[derive(Clone, Copy)]
pub(crate) struct BehindGraph;

impl Kinds for BehindGraph {
    ghost use Rattle.mc_text.specs.Headers.{plain_forms};
    ghost use Rattle.mc_text.specs.declared.fault.Fault.TheVariants.{BehindEnd};
    ghost use Rattle.mc_document.specs.Second.{refused_behind_graph};

    ghost refused = { λ _. refused_behind_graph };

    ghost unknown = { λ _. BehindEnd };

    ghost form = { λ _. plain_forms };

    fn refused(&self, kind: Kind) -> Option<Fault> {
        match kind {
            Kind::Flow | Kind::NoFlow | Kind::NoCausal | Kind::Least => None,
            _ => Some(Fault::BehindEnd),
        }
    }

    fn unknown(&self) -> Fault {
        Fault::BehindEnd
    }

    fn form(&self, _kind: Kind) -> Form {
        Form::plain()
    }
}
