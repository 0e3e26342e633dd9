//! How the parts of a run make up its end.

ghost use Rattle.mt_endings.specs.Laws.{EndingLaws};
ghost use Rattle.mt_endings.specs.OnDisk.{DiskEndingLaws};

use mt_outside::writings_add_up;

/// What stopped a run, or that nothing did, and how that was told, is the end of the run, as `Ends` has it.
pub fn endings_add_up()
    ensures { EndingLaws }
{
    writings_add_up();
}

/// The same of a run that looks at a journal on a disk, as `EndsOnDisk` has it.
pub fn endings_on_disk_add_up()
    ensures { DiskEndingLaws }
{
    endings_add_up();
}
