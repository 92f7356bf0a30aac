//! Products of tables.

ghost use Rattle.std.specs.Prelude.{◌≡◌, ◌+◌, ◌≤◌, ◌^◌, IfOk, Err};
ghost use Rattle.mc_compose.specs.Products.{IsMatrixOf, IsTableProduct, MultipliesAmplitudes};
ghost use Rattle.mc_compose.specs.Products.{LeavesRange, StaysInRange};

use crate::laws::sums_run_over_numbers;
use mc_cyclo::Cyclo;
use mc_model::Memory;
use mc_ring::{MatEnd, Matrix, Ring};
use mc_run::Table;
use std::alloc::Global;

fn two_to(n: u16) -> usize
    requires { n ≤ 16 }
    ensures { result ≡ 2 ^ n }
{
    1 << n
}

/// The entries of a table, with a row for each setting of the outputs.
fn matrix_of<const H: usize>(alloc: Global, table: &Table<H>) -> Result<Matrix<Cyclo<H>>, Memory>
    ensures { IfOk result (IsMatrixOf table.now) }
{
    let (rows, columns) = (two_to(table.outputs()), two_to(table.inputs()));
    // the proof needs that the step is permitted
    table.at(0, 0).known();
    let mut matrix = Matrix::zeros(alloc, rows, columns)?;
    'entries: for i in 0..rows * columns {
        let (y, b) = (i / columns, i % columns);
        matrix.set(y, b, table.at(y, b));
    }
    Ok(matrix)
}

/// The product of two tables, the first's outputs being the second's inputs: a row for each setting
/// of the second's outputs, a column for each of the first's inputs. Each entry is the sum over the
/// bits between them of the products, unscaled.
///
/// # Errors
///
/// `Range` exactly where a product or a partial sum, by rising number of the bits between, is out
/// of the range. `Memory`, which stands first, is want of memory.
pub fn product<const H: usize>(
    alloc: Global,
    first: &Table<H>,
    second: &Table<H>,
) -> Result<Matrix<Cyclo<H>>, MatEnd>
    requires between { first.now.outputs ≡ second.now.inputs }
    requires size { second.now.outputs + first.now.inputs ≤ 20 }
    ensures product { IfOk result (IsTableProduct H first.now second.now) }
    ensures amplitudes { IfOk result (MultipliesAmplitudes H first.now second.now) }
    ensures stays { IfOk result (λ m. StaysInRange H first.now second.now) }
    ensures range { result ≡ Err MatEnd.Range → LeavesRange H first.now second.now }
{
    sums_run_over_numbers();
    let (Ok(left), Ok(right)) = (matrix_of(alloc, second), matrix_of(alloc, first)) else {
        return Err(MatEnd::Memory);
    };
    left.times(alloc, &right)
}
