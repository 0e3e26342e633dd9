//! The limits of the node. All are this project's own, where the standard sets a minimum at most.

/// The most fabrics that share the node.
pub const FABRICS: usize = 16;

/// The most access control entries of one fabric.
pub const ENTRIES: usize = 4;

/// The most subjects of one access control entry.
pub const SUBJECTS: usize = 4;

/// The most targets of one access control entry.
pub const TARGETS: usize = 3;

/// The most CATs (CASE authenticated tags) of one actor.
pub const CATS: usize = 3;

/// The most subscriptions of one fabric; PASE sessions without a fabric count as one.
pub const SUBSCRIPTIONS: usize = 3;

/// The most CASE sessions of one fabric in one boot.
pub const CASE_SESSIONS: usize = 3;

/// The most PASE sessions in one boot.
pub const PASE_SESSIONS: usize = 4;

/// The most exchanges that a peer may have open on one session.
pub const EXCHANGES: usize = 4;

/// The most plain actors of one fabric that may have a deadline at once.
pub const PLAIN_DEADLINES: usize = 4;

/// The most attribute and event paths of one request.
pub const PATHS: usize = 16;

/// The most items of one write request.
pub const WRITE_ITEMS: usize = 16;

/// How many private events of one fabric are kept.
pub const PRIVATE_EVENTS: usize = 32;

/// How many shared events are kept.
pub const SHARED_EVENTS: usize = 128;

/// The most bytes of a certificate.
pub const CERTIFICATE_BYTES: usize = 400;

/// The bytes of a root's public key.
pub const ROOT_KEY_BYTES: usize = 65;

/// The bytes of an identity protection key.
pub const IPK_BYTES: usize = 16;

/// The most bytes of a fabric's label.
pub const LABEL_BYTES: usize = 32;

/// The most networks.
pub const NETWORKS: usize = 4;

/// The most items of a label list, and of one fabric's list of bindings or of bench items.
pub const LIST_ITEMS: usize = 8;

/// The most bytes of a datagram that is sent.
pub const SENT_BYTES: usize = 1232;

/// The most bytes of a datagram that is received.
pub const RECEIVED_BYTES: usize = 1280;

/// The most bytes of the payload of a plain line of a recording.
pub const PAYLOAD_BYTES: usize = 1280;

/// The most bytes that the items of one payload have together.
pub const ITEM_BYTES: usize = 1176;

/// The most lines of a recording behind its head.
pub const RECORDING_LINES: usize = 1_048_576;

/// The most bytes of a recording.
pub const RECORDING_BYTES: usize = 67_108_864;

/// The most bytes of a recording's line, without its end.
pub const LINE_BYTES: usize = 4096;

/// The most bytes of a configuration.
pub const CONFIGURATION_BYTES: usize = 1_048_576;

/// The most bytes of one durable change.
pub const CHANGE_BYTES: usize = 65_536;

/// The greatest time, in ms.
pub const LAST_TIME: u64 = 281_474_976_710_655;

/// The greatest operational node id; the least is 1.
pub const LAST_OPERATIONAL_NODE: u64 = 0xffff_ffef_ffff_ffff;

/// By how much the data versions of a boot begin above those of the boot before.
pub const VERSIONS_OF_BOOT: u32 = 1_048_576;

/// The most sessions of a configuration.
pub const SESSIONS: usize = 64;

/// The most verdicts of one kind in a configuration.
pub const VERDICTS: usize = 16;

/// The bytes of a nonce.
pub const NONCE_BYTES: usize = 32;

/// The most bytes of the elements of a certificate signing request.
pub const ELEMENTS_BYTES: usize = 400;

/// The bytes of a signature.
pub const SIGNATURE_BYTES: usize = 64;

/// The most bytes of a network's id.
pub const NETWORK_ID_BYTES: usize = 32;

/// The most bytes of a network's secret.
pub const NETWORK_SECRET_BYTES: usize = 64;

/// The greatest group id; the least is 1.
pub const LAST_GROUP: u64 = 65_535;

/// The greatest fabric index that a recording's line may name.
pub const LAST_FABRIC: u64 = 254;

/// The most calls of the disk that a stop in a recording may count.
pub const LAST_CALLS: u64 = 1_000_000;

/// The most bytes of the attribute NodeLabel.
pub const NODE_LABEL_BYTES: usize = 32;

/// The bytes of the attribute Location.
pub const LOCATION_BYTES: usize = 2;

/// How often a message is sent before its exchange is closed.
pub const SENDINGS: u8 = 5;

/// How long after its last sending a message is waited for, in ms.
pub const LAST_WAIT: u64 = 2_048;

/// How long after the first arming the fail-safe may stay armed, in ms.
pub const LONGEST_FAILSAFE: u64 = 900_000;

/// The greatest message counter; a session that has reached it seals no more.
pub const LAST_COUNTER: u32 = 4_294_967_295;

/// The most bytes of the name of a bench item.
pub const BENCH_NAME_BYTES: u16 = 32;

/// The most bytes of the secret of a bench item.
pub const BENCH_SECRET_BYTES: u16 = 64;

/// The most bytes of the name and of the value of a label.
pub const LABEL_TEXT_BYTES: u16 = 16;

/// The most group key sets of one fabric, beside set 0, which is always there.
pub const KEY_SETS: usize = 3;

/// The most items of one fabric's GroupKeyMap.
pub const KEY_MAP_ITEMS: usize = 4;

/// The bytes of an epoch key of a group key set.
pub const EPOCH_KEY_BYTES: usize = 16;

/// The greatest id of a group key set; the least is 1 where it is written.
pub const LAST_KEY_SET: u64 = 65_535;

/// For how long a commissioning window is open at least, in seconds.
pub const SHORTEST_WINDOW: u64 = 180;

/// For how long a commissioning window is open at most, in seconds.
pub const LONGEST_WINDOW: u64 = 900;

/// The greatest discriminator of a commissioning window.
pub const LAST_DISCRIMINATOR: u64 = 4095;

/// The bytes of the verifier of a passcode.
pub const VERIFIER_BYTES: usize = 97;

/// The least iterations by which a verifier is made.
pub const LEAST_ITERATIONS: u64 = 1000;

/// The most iterations by which a verifier is made.
pub const MOST_ITERATIONS: u64 = 100_000;

/// The least bytes of the salt of a verifier.
pub const LEAST_SALT_BYTES: usize = 16;

/// The most bytes of the salt of a verifier.
pub const MOST_SALT_BYTES: usize = 32;
