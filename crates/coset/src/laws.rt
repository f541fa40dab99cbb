//! What a plan is besides its definition, each law on the contract of a function with no code.
ghost use Rattle.coset.specs.CellLists.{CellsListed, FirstPlaceDecides, TotalOrder};
ghost use Rattle.coset.specs.OnePlan.{PlansAgree, LowestDecides};

/// A plan is one set of cells: with one code, two plans for one step have the same cells of the
/// record, where the same cells of the record are free.
pub fn plans_agree()
    ensures { PlansAgree }
{}

/// Of the smallest sets the plan is the one that has the lowest cell in which it and another
/// differ. So a walk from the first cell on finds it, which takes a cell wherever a smallest set
/// that agrees with it so far has that cell.
pub fn lowest_cell_decides()
    ensures { LowestDecides }
{}

/// What it is to come first. The list of the cells of a set has these cells of a record and no
/// others, each once, lowest first. Of two lists the one comes first that has the smaller number at
/// the first place where they differ, or has ended there; and this is a total order.
pub fn lists_in_order()
    ensures cells { CellsListed }
    ensures place { FirstPlaceDecides }
    ensures order { TotalOrder }
{}
