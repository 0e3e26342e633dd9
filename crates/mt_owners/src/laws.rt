//! Laws of who owns which session. The functions here do nothing, and their contracts are the laws.

ghost use Rattle.mt_owners.specs.Laws.{OwnersAreExact, RowsHaveBegun};

/// A session is among a worker's rows exactly where the datagrams that name it are for that worker.
pub fn owners_are_exact()
    ensures { OwnersAreExact }
{}

/// Where nothing has been said over the sessions of the boot, nothing has been over the rows of a worker.
pub fn rows_have_begun()
    ensures { RowsHaveBegun }
{}
