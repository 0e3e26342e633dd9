//! That a keeper in memory may go to another thread. The check does not see it by itself, and is told part by part.

ghost use denote.Param.Send.{IsSend};
ghost use Rattle.mt_durable.specs.contracts.list_keeper.ListKeeper as keeper;

use mt_durable::Durable;

// A type that may go to another thread.
fn crosses<T: Send>()
    ensures { IsSend T.row }
{}

/// A keeper in memory may go to another thread. It does nothing.
pub fn keepers_cross()
    ensures { IsSend keeper.the_row }
{
    crosses::<Durable>();
}
