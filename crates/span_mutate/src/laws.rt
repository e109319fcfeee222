//! The laws of mutations, each as the contract of a function that does nothing.
ghost use Rattle.span_mutate.specs.Directories.{RootByRoot, OneDatabase, RowsInOrder, ParentsStay};
ghost use Rattle.span_mutate.specs.Faults.{FaultsAreNamed};
ghost use Rattle.span_mutate.specs.Touched.{TouchedAlone};
ghost use Rattle.span_mutate.specs.Typed.{TypedStay};

/// Apply works root by root: its outcome on a database is the outcomes of its directories put together, the first fault included.
pub fn root_by_root()
    ensures { RootByRoot }
{}

/// A database is put together of its directories in one way: databases with the same directories are the same.
pub fn one_database()
    ensures { OneDatabase }
{}

/// The list of a table's rows in a database is in the order of its primary key, with one row at each key.
pub fn rows_in_order()
    ensures { RowsInOrder }
{}

/// Apply leaves no row without its parent row, where none was before.
pub fn parents_stay()
    ensures { ParentsStay }
{}

/// Apply of typed mutations on a typed database leaves a typed database.
pub fn typed_stay()
    ensures { TypedStay }
{}

/// Apply looks at the touched directories alone, and leaves all other rows: databases with the same rows there have the same outcome.
pub fn touched_alone()
    ensures { TouchedAlone }
{}

/// Apply refuses mutations with `Exists`, `Missing`, `ParentMissing`, `HasChildren` or `RowTooLong`, and with nothing else.
pub fn faults_are_named()
    ensures { FaultsAreNamed }
{}
