//! Laws of cells, each the contract of a function that does nothing.
ghost use Rattle.std.specs.Cmp.{IsTotalOrder};
ghost use Rattle.std.specs.FinMap.{IsAntisymmetric};
ghost use Rattle.host_names.specs.Cells.{cell_cmp};

/// Cells have one order: it is total, and cells that it does not tell apart are one cell.
pub fn cells_have_one_order()
    ensures total { IsTotalOrder cell_cmp }
    ensures exact { IsAntisymmetric cell_cmp }
{}
