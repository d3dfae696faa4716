ghost use Rattle.column_lists.specs.RowLaws.{RowsAreNamed, RowsReadBack};

/// A list of columns is read exactly where each column is one that there is and they rise, and as the row of these
/// columns.
pub fn rows_are_named()
    ensures { RowsAreNamed }
{}

/// The list of a row's columns is read as this row, and is the only list that is.
pub fn rows_read_back()
    ensures { RowsReadBack }
{}
