ghost use Rattle.table_anf.specs.TableLaws.{PolynomialIsTable, TermsAreLookUps, AcceptedTablesFit, KnownTables};

/// At the bits of each index, the polynomials of a table's coefficients give the bits of its entry.
pub fn polynomial_is_table()
    ensures { PolynomialIsTable }
{}

/// The value of a table's terms is the table's look-up at each bit position.
pub fn terms_are_look_ups()
    ensures { TermsAreLookUps }
{}

/// Of each table that judging accepts a normal form may be asked.
pub fn accepted_tables_fit()
    ensures { AcceptedTablesFit }
{}

/// The terms of small tables, as worked by hand.
pub fn known_tables()
    ensures { KnownTables }
{}
