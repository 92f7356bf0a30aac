//! Documents that several rows are about, each on one line.

/// One gate.
pub(crate) const GATE: &str = "circuit 1 ; in a ; j a 1 ; out a ; end";

/// Its pattern.
pub(crate) const GATE_PATTERN: &str = "pattern 1 ; in a ; n q1 ; e a q1 ; m a 7 ; x q1 a ; \
     out q1 ; end";

/// Two gates that cancel.
pub(crate) const TWICE_CZ: &str = "circuit 1 ; in a b ; cz a b ; cz a b ; out a b ; end";

/// Their pattern.
pub(crate) const TWO_EDGES: &str = "pattern 1 ; in a b ; e a b ; e a b ; out a b ; end";

/// Two gates in a row.
pub(crate) const TWO_GATES: &str = "circuit 1 ; in a ; j a 1 ; j a 2 ; out a ; end";

/// Three gates in a row.
pub(crate) const THREE_GATES: &str = "circuit 1 ; in a ; j a 1 ; j a 2 ; j a 3 ; out a ; end";

/// The shifted form of three gates in a row.
pub(crate) const SHIFTED: &str = "pattern 1 ; in a ; n q1 ; n q2 ; n q3 ; e a q1 ; e q1 q2 ; \
     e q2 q3 ; m a 7 ; m q1 6 s: a ; m q2 5 s: q1 ; x q3 a q2 ; z q3 q1 ; out q3 ; end";

/// Its change of outcomes.
pub(crate) const SHIFTED_CHANGE: &str = "change 1 ; o a ; o q1 ; o q2 a ; end";

/// A pattern that corrects by Z before X.
pub(crate) const WILD: &str = "pattern 1 ; in a b ; m a 0 ; z b a ; x b a ; out b ; end";

/// Its standard form.
pub(crate) const WILD_STANDARD: &str = "pattern 1 ; in a b ; m a 0 ; x b a ; z b a ; out b ; end";

/// A circuit whose compiled pattern is less deep than its shifted translation.
pub(crate) const SHALLOW: &str = "circuit 1 ; in a ; plus r ; cz a r ; j a 1 ; j a 1 ; out a r ; \
     end";

/// The third wire is flipped where the first two are 1.
pub(crate) const TOFFOLI: &str = "circuit 1 ; in a b c ; cz b c ; j c 0 ; j c 7 ; cz a c ; \
     j c 0 ; j c 1 ; cz b c ; j c 0 ; j c 7 ; cz a c ; j c 0 ; j c 1 ; j b 1 ; cz a b ; \
     j b 0 ; j b 7 ; cz a b ; j b 0 ; j a 1 ; j a 0 ; out a b c ; end";

/// A correction that acts in every branch.
pub(crate) const CONSTANT: &str = "pattern 2 ; in a ; n b ; x a ! ; e a b ; m a 1 ; x b a ; \
     out b ; end";

/// A correction and nothing else.
pub(crate) const ALWAYS_X: &str = "pattern 2 ; in a ; x a ! ; out a ; end";

/// One gate, in sixteenths of a turn.
pub(crate) const SIXTEENTH: &str = "circuit 1 turn 16 ; in a ; j a 1 ; out a ; end";

/// A path of four vertices.
pub(crate) const PATH: &str = "graph 1 ; in a ; n b ; n c ; n d ; e a b ; e b c ; e c d ; \
     m a 0 ; m b 0 ; m c 0 ; out d ; end";

/// Its flow.
pub(crate) const PATH_FLOW: &str = "flow 1 ; depth 3 ; g 1 c : d ; g 2 b : c ; g 3 a : b d ; end";

/// Its bound of depth.
pub(crate) const PATH_BOUND: &str = "least 1 ; depth 3 ; l 1 c ; l 2 b ; l 3 a ; y 1 a : a ; \
     y 1 b : b ; y 2 a : a ; end";

/// A graph with a generalised flow and no causal one.
pub(crate) const FLOW_ONLY: &str = "graph 1 ; in a1 a2 a3 ; n b1 ; n b2 ; n b3 ; e a1 b1 ; \
     e a1 b2 ; e a2 b1 ; e a2 b2 ; e a2 b3 ; e a3 b1 ; e a3 b3 ; m a1 0 ; m a2 0 ; m a3 0 ; \
     out b1 b2 b3 ; end";

/// Its stuck set.
pub(crate) const FLOW_ONLY_STUCK: &str = "nocausal 1 ; b a1 a2 a3 ; end";

/// A graph without any flow.
pub(crate) const NO_FLOW: &str = "graph 1 ; in a1 a2 a3 ; n b1 ; n b2 ; n b3 ; e a1 b1 ; \
     e a1 b3 ; e a2 b1 ; e a2 b2 ; e a3 b2 ; e a3 b3 ; m a1 0 ; m a2 0 ; m a3 0 ; \
     out b1 b2 b3 ; end";

/// Its refuter.
pub(crate) const NO_FLOW_REFUTER: &str = "noflow 1 ; y a1 : a1 a2 a3 ; y a2 : a1 a2 a3 ; \
     y a3 : a1 a2 a3 ; end";

/// A vertex without neighbours.
pub(crate) const LONE: &str = "graph 1 ; in ; n v ; m v 0 ; out ; end";

/// Two outputs with an edge.
pub(crate) const PAIR: &str = "graph 1 ; in a ; n b ; e a b ; out a b ; end";

/// Their pattern.
pub(crate) const PAIR_PATTERN: &str = "pattern 1 ; in a ; n b ; e a b ; out a b ; end";

/// A pattern whose branches are not alike.
pub(crate) const UNCORRECTED: &str = "pattern 1 ; in a ; n b ; e a b ; m a 7 ; out b ; end";

/// Two gates in a row without angles.
pub(crate) const TWO_CORRECTIONS: &str = "pattern 1 ; in a ; n b ; n c ; e a b ; m a 0 ; x b a ; \
     e b c ; m b 0 ; x c b ; out c ; end";

/// No qubit at all.
pub(crate) const NOTHING: &str = "pattern 1 ; in ; out ; end";

/// One qubit, of which nothing is done.
pub(crate) const ONE_QUBIT: &str = "pattern 1 ; in a ; out a ; end";

/// A list of one gate.
pub(crate) const X_GATE: &str = "gates 1 ; in a ; x a ; out a ; end";
