//! Laws of the order of rows and of the form of access control entries, over the definitions alone, and the
//! numbers of the opcodes and limits. Each is the contract of a function that does nothing.

ghost use Rattle.std.specs.Prelude.{◌≡◌, ◌↔◌, ◌≤◌, ◌++◌, ℕ, Bool, IsTrue, List, Some, filter, map, not};
ghost use Rattle.std.specs.List.{list_all};
ghost use Rattle.mt_tlv.specs.declared.value.Value.{Value};
ghost use Rattle.mt_model.specs.texts.Config.{are_numbered_from, ascend_from};
ghost use Rattle.mt_model.specs.tables.Entries.{entry_in, entry_value};
ghost use Rattle.mt_model.specs.rows.Order.{are_ascending, entry_rows, fabric_rows, fabrics_ascend, in_order};
ghost use base.Stored.{Gv};
ghost use Rattle.mt_model.specs.rows.Same.{are_same_codes, are_same_rows, is_same_entry};
ghost use Rattle.mt_model.specs.rows.Setting.{is_above, is_at, is_below, is_entry_above, is_entry_below, is_entry_of, with_entries, with_rows};
ghost use Rattle.mt_model.specs.rows.Sight.{seen_by, stands_at};
ghost use Rattle.mt_model.specs.declared.tables.access.AclEntry.{AclEntry};
ghost use Rattle.mt_model.specs.declared.tables.fabric.Fabric.{Fabric};
ghost use Rattle.mt_model.specs.declared.limits.TheConstants.{FABRICS, ENTRIES, SUBJECTS, TARGETS, CATS, SUBSCRIPTIONS, CASE_SESSIONS, PASE_SESSIONS, EXCHANGES, PLAIN_DEADLINES, PATHS, WRITE_ITEMS, PRIVATE_EVENTS, SHARED_EVENTS, CERTIFICATE_BYTES, ROOT_KEY_BYTES, IPK_BYTES, LABEL_BYTES, NETWORKS, LIST_ITEMS, SENT_BYTES, RECEIVED_BYTES, PAYLOAD_BYTES, ITEM_BYTES, RECORDING_LINES, RECORDING_BYTES, LINE_BYTES, CONFIGURATION_BYTES, CHANGE_BYTES, LAST_TIME, LAST_OPERATIONAL_NODE, VERSIONS_OF_BOOT, SESSIONS, VERDICTS, NONCE_BYTES, ELEMENTS_BYTES, SIGNATURE_BYTES, NETWORK_ID_BYTES, NETWORK_SECRET_BYTES, LAST_GROUP, LAST_FABRIC, LAST_CALLS, NODE_LABEL_BYTES, LOCATION_BYTES, SENDINGS, LAST_WAIT, LONGEST_FAILSAFE, LAST_COUNTER, BENCH_NAME_BYTES, BENCH_SECRET_BYTES, LABEL_TEXT_BYTES, KEY_SETS, KEY_MAP_ITEMS, EPOCH_KEY_BYTES, LAST_KEY_SET, SHORTEST_WINDOW, LONGEST_WINDOW, LAST_DISCRIMINATOR, VERIFIER_BYTES, LEAST_ITERATIONS, MOST_ITERATIONS, LEAST_SALT_BYTES, MOST_SALT_BYTES};
ghost use Rattle.mt_model.specs.declared.messages.opcode.TheConstants.{STATUS_RESPONSE, READ_REQUEST, SUBSCRIBE_REQUEST, SUBSCRIBE_RESPONSE, REPORT_DATA, WRITE_REQUEST, WRITE_RESPONSE, INVOKE_REQUEST, INVOKE_RESPONSE, TIMED_REQUEST};
ghost use Rattle.mt_model.specs.declared.rows.place.Place.{Place};
ghost use Rattle.mt_model.specs.declared.rows.place.Row.{Row};

/// The rows of a place, in rows that ascend, are in order for every fabric.
pub fn rows_of_a_place_are_in_order()
    ensures { (rows : List Row) (place : Place) (fabric : ℕ) → IsTrue (are_ascending rows)
        → in_order fabric (filter (stands_at place) rows) ≡ filter (stands_at place) rows }
{}

/// Entries that ascend by fabric are rows that ascend, whatever the value of each, and are in order
/// for every fabric.
pub fn entries_are_in_order()
    ensures ascending { (entries : List AclEntry) (place : Place) (value : AclEntry → Value) → IsTrue (ascend_from 0 entries)
        → IsTrue (are_ascending (entry_rows place value entries)) }
    ensures in_order { (entries : List AclEntry) (place : Place) (value : AclEntry → Value) (fabric : ℕ) → IsTrue (ascend_from 0 entries)
        → in_order fabric (entry_rows place value entries) ≡ entry_rows place value entries }
{}

/// Fabrics whose indexes rise are rows that ascend, whatever the value of each, and are in order for
/// every fabric.
pub fn fabrics_are_in_order()
    ensures ascending { (fabrics : List Fabric) (place : Place) (value : Fabric → Value) → IsTrue (fabrics_ascend fabrics)
        → IsTrue (are_ascending (fabric_rows place value fabrics)) }
    ensures in_order { (fabrics : List Fabric) (place : Place) (value : Fabric → Value) (fabric : ℕ) → IsTrue (fabrics_ascend fabrics)
        → in_order fabric (fabric_rows place value fabrics) ≡ fabric_rows place value fabrics }
{}

/// The indexes of fabrics that are numbered from 1 rise.
pub fn numbered_fabrics_ascend()
    ensures { (fabrics : List Fabric) → IsTrue (are_numbered_from 1 fabrics) → IsTrue (fabrics_ascend fabrics) }
{}

/// What a fabric sees of rows in order is in order.
pub fn in_order_sees()
    ensures { (fabric other : ℕ) (rows : List Row) → map (seen_by fabric) (in_order other rows) ≡ in_order other (map (seen_by fabric) rows) }
{}

/// Rows that ascend still do where those of one fabric at a place are set. What stands below and above these are all
/// the others.
pub fn set_rows_stand_in_order()
    ensures ascending { (rows : List Row) (place : Place) (fabric : ℕ) (values : List Value) → IsTrue (are_ascending rows)
        → IsTrue (are_ascending (with_rows place fabric values rows)) }
    ensures others { (rows : List Row) (place : Place) (fabric : ℕ) → IsTrue (are_ascending rows)
        → filter (is_below place fabric) rows ++ filter (is_above place fabric) rows ≡ filter (λ (row : Row). not (is_at place fabric row)) rows }
{}

/// Entries that ascend by fabric still do where those of one fabric are set to entries of that fabric. What stands
/// below and above these are all the others.
pub fn set_entries_stand_in_order()
    ensures ascending { (entries new : List AclEntry) (least fabric : ℕ) → least ≤ fabric → IsTrue (ascend_from least entries)
        → IsTrue (list_all (is_entry_of fabric) new) → IsTrue (ascend_from least (with_entries fabric new entries)) }
    ensures others { (entries : List AclEntry) (fabric : ℕ) → IsTrue (ascend_from 0 entries)
        → filter (is_entry_below fabric) entries ++ filter (is_entry_above fabric) entries ≡ filter (λ (entry : AclEntry). not (is_entry_of fabric entry)) entries }
{}

/// What stays of rows that ascend, or of entries, ascends.
pub fn what_stays_stands_in_order()
    ensures rows { (keep : Row → Bool) (rows : List Row) → IsTrue (are_ascending rows) → IsTrue (are_ascending (filter keep rows)) }
    ensures entries { (keep : AclEntry → Bool) (least : ℕ) (entries : List AclEntry) → IsTrue (ascend_from least entries) → IsTrue (ascend_from least (filter keep entries)) }
{}

/// The value that an access control entry is written as is read as that entry.
pub fn entries_are_read_again()
    ensures { (entry : AclEntry) → entry_in (entry_value entry) ≡ Some entry }
{}

/// Codes are told to be the same exactly where they are; so are rows and entries, which have codes.
pub fn what_is_told_the_same_is()
    ensures codes { (code other : Gv) → IsTrue (are_same_codes code other) ↔ (code ≡ other) }
    ensures rows { (rows others : List Row) → IsTrue (are_same_rows rows others) ↔ (rows ≡ others) }
    ensures entries { (entry other : AclEntry) → IsTrue (is_same_entry entry other) ↔ (entry ≡ other) }
{}

/// The opcodes of the interaction model are the numbers that the standard gives them.
pub fn opcodes_are_those_of_the_standard()
    ensures status_response { STATUS_RESPONSE ≡ 0x01 }
    ensures read_request { READ_REQUEST ≡ 0x02 }
    ensures subscribe_request { SUBSCRIBE_REQUEST ≡ 0x03 }
    ensures subscribe_response { SUBSCRIBE_RESPONSE ≡ 0x04 }
    ensures report_data { REPORT_DATA ≡ 0x05 }
    ensures write_request { WRITE_REQUEST ≡ 0x06 }
    ensures write_response { WRITE_RESPONSE ≡ 0x07 }
    ensures invoke_request { INVOKE_REQUEST ≡ 0x08 }
    ensures invoke_response { INVOKE_RESPONSE ≡ 0x09 }
    ensures timed_request { TIMED_REQUEST ≡ 0x0a }
{}

/// The limits are these numbers.
pub fn limits_are_these()
    ensures fabrics { FABRICS ≡ 16 }
    ensures entries { ENTRIES ≡ 4 }
    ensures subjects { SUBJECTS ≡ 4 }
    ensures targets { TARGETS ≡ 3 }
    ensures cats { CATS ≡ 3 }
    ensures subscriptions { SUBSCRIPTIONS ≡ 3 }
    ensures case_sessions { CASE_SESSIONS ≡ 3 }
    ensures pase_sessions { PASE_SESSIONS ≡ 4 }
    ensures exchanges { EXCHANGES ≡ 4 }
    ensures plain_deadlines { PLAIN_DEADLINES ≡ 4 }
    ensures paths { PATHS ≡ 16 }
    ensures write_items { WRITE_ITEMS ≡ 16 }
    ensures private_events { PRIVATE_EVENTS ≡ 32 }
    ensures shared_events { SHARED_EVENTS ≡ 128 }
    ensures certificate_bytes { CERTIFICATE_BYTES ≡ 400 }
    ensures root_key_bytes { ROOT_KEY_BYTES ≡ 65 }
    ensures ipk_bytes { IPK_BYTES ≡ 16 }
    ensures label_bytes { LABEL_BYTES ≡ 32 }
    ensures networks { NETWORKS ≡ 4 }
    ensures list_items { LIST_ITEMS ≡ 8 }
    ensures sent_bytes { SENT_BYTES ≡ 1232 }
    ensures received_bytes { RECEIVED_BYTES ≡ 1280 }
    ensures payload_bytes { PAYLOAD_BYTES ≡ 1280 }
    ensures item_bytes { ITEM_BYTES ≡ 1176 }
    ensures recording_lines { RECORDING_LINES ≡ 1048576 }
    ensures recording_bytes { RECORDING_BYTES ≡ 67108864 }
    ensures line_bytes { LINE_BYTES ≡ 4096 }
    ensures configuration_bytes { CONFIGURATION_BYTES ≡ 1048576 }
    ensures change_bytes { CHANGE_BYTES ≡ 65536 }
    ensures last_time { LAST_TIME ≡ 281474976710655 }
    ensures last_operational_node { LAST_OPERATIONAL_NODE ≡ 0xffffffefffffffff }
    ensures versions_of_boot { VERSIONS_OF_BOOT ≡ 1048576 }
    ensures sessions { SESSIONS ≡ 64 }
    ensures verdicts { VERDICTS ≡ 16 }
    ensures nonce_bytes { NONCE_BYTES ≡ 32 }
    ensures elements_bytes { ELEMENTS_BYTES ≡ 400 }
    ensures signature_bytes { SIGNATURE_BYTES ≡ 64 }
    ensures network_id_bytes { NETWORK_ID_BYTES ≡ 32 }
    ensures network_secret_bytes { NETWORK_SECRET_BYTES ≡ 64 }
    ensures last_group { LAST_GROUP ≡ 65535 }
    ensures last_fabric { LAST_FABRIC ≡ 254 }
    ensures last_calls { LAST_CALLS ≡ 1000000 }
    ensures node_label_bytes { NODE_LABEL_BYTES ≡ 32 }
    ensures location_bytes { LOCATION_BYTES ≡ 2 }
    ensures sendings { SENDINGS ≡ 5 }
    ensures last_wait { LAST_WAIT ≡ 2048 }
    ensures longest_failsafe { LONGEST_FAILSAFE ≡ 900000 }
    ensures last_counter { LAST_COUNTER ≡ 4294967295 }
    ensures bench_name_bytes { BENCH_NAME_BYTES ≡ 32 }
    ensures bench_secret_bytes { BENCH_SECRET_BYTES ≡ 64 }
    ensures label_text_bytes { LABEL_TEXT_BYTES ≡ 16 }
{}

/// So are those of commissioning windows and of group keys.
pub fn command_limits_are_these()
    ensures key_sets { KEY_SETS ≡ 3 }
    ensures key_map_items { KEY_MAP_ITEMS ≡ 4 }
    ensures epoch_key_bytes { EPOCH_KEY_BYTES ≡ 16 }
    ensures last_key_set { LAST_KEY_SET ≡ 65535 }
    ensures shortest_window { SHORTEST_WINDOW ≡ 180 }
    ensures longest_window { LONGEST_WINDOW ≡ 900 }
    ensures last_discriminator { LAST_DISCRIMINATOR ≡ 4095 }
    ensures verifier_bytes { VERIFIER_BYTES ≡ 97 }
    ensures least_iterations { LEAST_ITERATIONS ≡ 1000 }
    ensures most_iterations { MOST_ITERATIONS ≡ 100000 }
    ensures least_salt_bytes { LEAST_SALT_BYTES ≡ 16 }
    ensures most_salt_bytes { MOST_SALT_BYTES ≡ 32 }
{}
