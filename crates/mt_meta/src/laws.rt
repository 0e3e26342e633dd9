//! Laws of the table. Each is the contract of a function that does nothing.

ghost use Rattle.std.specs.Prelude.{◌≡◌, ◌&&◌, ℕ, IsTrue, Ok, is_ok, is_some, true};
ghost use Rattle.std.specs.List.{list_all, list_any};
ghost use Rattle.mt_model.specs.rows.Devices.{device_of};
ghost use Rattle.mt_model.specs.declared.rows.place.Place.{Place};
ghost use Rattle.mt_meta.specs.Finding.{find_data_of, find_of, is_endpoint};
ghost use Rattle.mt_meta.specs.declared.meta.Meta.{Meta};
ghost use Rattle.mt_meta.specs.Places.{all_places, ascend, is_at};
ghost use Rattle.mt_meta.specs.Stored.{begins_rightly, is_sensitive_by_table, is_stored};
ghost use Rattle.mt_meta.specs.Writable.{takes_rightly};
ghost use Rattle.mt_model.specs.rows.Sight.{is_sensitive_field};
ghost use Rattle.mt_model.specs.rows.Stored.{is_stored_place};

/// The places of all attributes ascend, so that none stands twice.
pub fn places_ascend()
    ensures { IsTrue (ascend all_places) }
{}

/// What is found is what stands among all places.
pub fn places_are_found()
    ensures { (place : Place) → is_ok (find_of place) ≡ list_any (is_at place) all_places }
{}

/// The endpoints of the table are those that have a device type.
pub fn endpoints_have_devices()
    ensures { (endpoint : ℕ) → is_endpoint endpoint ≡ is_some (device_of endpoint) }
{}

/// What is known of an attribute is known of the data of its place.
pub fn attributes_are_data()
    ensures { (place : Place) (meta : Meta) → find_of place ≡ Ok meta → find_data_of place ≡ Ok meta }
{}

/// The sensitive fields of the table are those that a fabric is not shown of the items of others.
pub fn sensitive_fields_are_those_of_sight()
    ensures { (place : Place) (field : ℕ) → is_sensitive_by_table place field ≡ is_sensitive_field place field }
{}

/// Each stored place that is not fabric-scoped has exactly one row on a new node, and no other place has
/// any.
pub fn stored_places_begin()
    ensures { IsTrue (list_all begins_rightly all_places) }
{}

/// Rows are kept under a place exactly where the table has data there and it is stored.
pub fn stored_places_are_those_of_the_model()
    ensures { (place : Place) → is_stored_place place ≡ (is_stored place && is_ok (find_data_of place)) }
{}

/// An attribute takes something exactly where it has a privilege to write it, and then what fits its kind.
/// It is stored, but for the access control list.
pub fn writable_attributes_take_something()
    ensures { (place : Place) → is_ok (find_of place) ≡ true → takes_rightly place ≡ true }
{}
