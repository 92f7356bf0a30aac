//! A kind of section of rows.

ghost use Rattle.std.specs.Prelude.{◌≡◌};

use crate::row::{Row, Shape};
use mc_text::{Head, Stop};

/// What a kind of sections of rows adds to the common rules, and how it keeps its rows.
pub trait Rows {
    ghost use Rattle.std.specs.Prelude.{◌≡◌, ◌++◌, ◌∷◌, [], List, None, OnOk, IfErr};
    ghost use Rattle.mc_text.specs.Stops.{IsStop};
    ghost use Rattle.mc_rows.specs.declared.row.Row.{Row as PlainRow};
    ghost use Rattle.mc_rows.specs.Judge.{Kind};
    ghost use Rattle.mc_rows.specs.Kept.{Passes};

    /// Its order, shapes and rules.
    ghost kind: { Self → Kind };

    /// That these are the rows that are kept.
    ghost holds: { Self → List PlainRow → Type 0 };

    /// Whether a record word may stand behind one, or at the start.
    fn follows(&self, last: Option<Head>, head: Option<Head>) -> bool
        ensures { result ≡ (kind self.now).follows last head };

    /// The shape of the row of a record word.
    fn shape(&self, head: Option<Head>) -> Shape
        ensures { result ≡ (kind self.now).shape head };

    /// Whether `!` may stand in a set.
    fn second(&self) -> bool
        ensures { result ≡ (kind self.now).second };

    /// Judges a record word by the rows so far.
    fn bar_head(&self, head: Option<Head>) -> Result<(), Stop>
        ensures clean { OnOk result ((rows : List PlainRow) → holds self.now rows
            → (kind self.now).bars.head rows head ≡ None) }
        ensures err { IfErr result (λ stop. (rows : List PlainRow) → holds self.now rows
            → IsStop stop ((kind self.now).bars.head rows head)) };

    /// Judges the name of a row by the rows so far, its number and its record word.
    fn bar_named(&self, head: Option<Head>, number: u16, q: u16) -> Result<(), Stop>
        ensures clean { OnOk result ((rows : List PlainRow) → holds self.now rows
            → (kind self.now).bars.named rows head number q ≡ None) }
        ensures err { IfErr result (λ stop. (rows : List PlainRow) → holds self.now rows
            → IsStop stop ((kind self.now).bars.named rows head number q)) };

    /// Judges a member of a set by the rows so far.
    fn bar_listed(&self, q: u16) -> Result<(), Stop>
        ensures clean { OnOk result ((rows : List PlainRow) → holds self.now rows
            → (kind self.now).bars.listed rows q ≡ None) }
        ensures err { IfErr result (λ stop. (rows : List PlainRow) → holds self.now rows
            → IsStop stop ((kind self.now).bars.listed rows q)) };

    /// Keeps a row. Where nothing is against it, only memory can lack.
    fn push(&mut self, row: Row) -> Result<(), Stop>
        ensures kept { OnOk result ((rows : List PlainRow) → holds self.old rows
            → Passes (kind self.old) rows row → holds self.new (rows ++ row ∷ [])) }
        ensures same { OnOk result (kind self.new ≡ kind self.old) }
        ensures err { IfErr result (λ stop. (rows : List PlainRow) → holds self.old rows
            → Passes (kind self.old) rows row → stop ≡ Stop.Memory) };
}
