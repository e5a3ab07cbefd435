// What holds of cells that are filled, as the contract of a function that does nothing.
ghost use Rattle.inc_filling.specs.Fillable.{NewCellsAreFillable};
ghost use Rattle.inc_filling.specs.Generated.{NewFilesTakeContents};

/// The cell of a file that was just mounted may be filled.
pub fn new_cells_are_fillable()
    ensures fresh { NewCellsAreFillable }
{}

/// A new file takes each piece of a content of its id and size.
pub fn new_files_take_contents()
    ensures takes { NewFilesTakeContents }
{}
