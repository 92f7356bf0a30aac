use super::*;
use std::alloc::Global;
use std::test::Fail;

/// Whether a matrix times a column of ones is the column of its rows' sums.
fn multiplies_bits(alloc: Global) -> Result<bool, MatEnd> {
    let Ok(mut left) = Matrix::zeros(alloc, 2, 2) else {
        return Err(MatEnd::Memory);
    };
    left.set(0, 0, Bit::of(true));
    left.set(0, 1, Bit::one());
    left.set(1, 1, Bit::one());
    let Ok(mut right) = Matrix::zeros(alloc, 2, 1) else {
        return Err(MatEnd::Memory);
    };
    right.set(0, 0, Bit::one());
    right.set(1, 0, Bit::one());
    let product = left.times(alloc, &right)?;
    Ok(product.columns() == 1 && !product.at(0, 0).get() && product.at(1, 0).get())
}

#[test]
fn a_product_of_bits(rt: HostRuntime) -> Result<(), Fail> {
    assert!(rt; multiplies_bits(rt.alloc())?);
    assert!(rt; Bit::of(true).same(&Bit::one()));
    Ok(())
}
