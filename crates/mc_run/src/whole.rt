//! What every table keeps, told to callers.

ghost use Rattle.std.specs.Prelude.{IsTrue};
ghost use Rattle.mc_model.specs.Steps.{is_permitted};
ghost use Rattle.mc_run.specs.Tables.{IsTable};

use crate::table::Table;

impl<const H: usize> Table<H> {
    /// Tells that there is an entry for all output bits and input bits, and no other; does nothing.
    pub fn known(&self)
        ensures table { IsTable self.now }
        ensures permitted { IsTrue (is_permitted H) }
    {
        let _entries = &self.entries;
    }
}
