//! Laws of the names. Each is the contract of a function that does nothing.

ghost use Rattle.std.specs.Prelude.{◌≡◌, IsTrue, Some};
ghost use Rattle.std.specs.List.{list_all};
ghost use Rattle.mt_model.specs.declared.messages.status.Status.{Status};
ghost use Rattle.mt_model.specs.messages.Status.{code_of};
ghost use Rattle.mt_names.specs.Laws.{columns_differ, differ, is_named, standing, stands};
ghost use Rattle.mt_names.specs.Names.{clusters, globals};
ghost use Rattle.mt_names.specs.Words.{status_of};

/// Each cluster that stands on an endpoint has a name, and what has one stands on an endpoint.
pub fn clusters_have_names()
    ensures all { IsTrue (list_all is_named standing) }
    ensures only { IsTrue (list_all stands clusters) }
{}

/// No two clusters, and no two attributes, commands, responses or events of a cluster, have one name.
pub fn names_differ()
    ensures clusters { IsTrue (differ clusters) }
    ensures globals { IsTrue (differ globals) }
    ensures columns { IsTrue (list_all columns_differ clusters) }
{}

/// Each status is told by its code.
pub fn statuses_are_told_by_their_codes()
    ensures { (status : Status) → status_of (code_of status) ≡ Some status }
{}
