//! What is proved of chained patterns and of patterns side by side.

ghost use Rattle.mc_compose.specs.Laws.{ChainsMultiply, SumsRunOverNumbers, SidesMultiply};
ghost use Rattle.mc_compose.specs.Laws.{OutcomesJoin, ChainsAreValid, SidesAreValid};
ghost use Rattle.mc_compose.specs.Laws.{ChainsArePatterns, SidesArePatterns, ScalesAdd};

/// The branch map of a chained pattern is the matrix product of those of its parts.
pub fn chains_multiply()
    ensures { ChainsMultiply }
{}

/// The sum in it runs over the numbers that rows and columns have.
pub fn sums_run_over_numbers()
    ensures { SumsRunOverNumbers }
{}

/// Each entry of the branch map of two patterns side by side is the product of an entry of either.
pub fn sides_multiply()
    ensures { SidesMultiply }
{}

/// All outcomes of two parts are met by outcomes of the whole.
pub fn outcomes_join()
    ensures { OutcomesJoin }
{}

/// A chained pattern of at most 256 qubits is valid.
pub fn chains_are_valid()
    ensures { ChainsAreValid }
{}

/// Two patterns side by side of at most 256 qubits together are a valid pattern.
pub fn sides_are_valid()
    ensures { SidesAreValid }
{}

/// A chained pattern of at most 256 qubits and 262,144 commands is one that the code holds.
pub fn chains_are_patterns()
    ensures { ChainsArePatterns }
{}

/// So are two patterns side by side.
pub fn sides_are_patterns()
    ensures { SidesArePatterns }
{}

/// The scales of two patterns add up, and so do their numbers of commands.
pub fn scales_add()
    ensures { ScalesAdd }
{}
