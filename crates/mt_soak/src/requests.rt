//! The requests of a soak, each made anew.

ghost use Rattle.std.specs.Prelude.{◌≡◌, [], ◌∷◌, ◌++◌, true, false, Some, None, IfOk, codes, decimal};
ghost use Rattle.std.specs.Int.{w64, to_be_bytes};
ghost use Rattle.mt_tlv.specs.Tree.{text, octets, structure, none, more};
ghost use Rattle.mt_soak.specs.Requests.{bench_items, label, read_of, subscription_to, toggle_request, write_of};

use itoa::Buffer;
use mt_model::{Index, Path, Paths, Place, Request, Versions, WriteItem, Writes};
use mt_tlv::{Bytes, Members, Tag, Value};
use std::alloc::{AllocError, Global};

/// OnOff of the cluster On/Off on endpoint 1.
pub const ON_OFF: Path = Path {
    endpoint: Some(1),
    cluster: Some(0x6),
    leaf: Some(0),
    index: Index::Whole,
};

/// NodeLabel of Basic Information.
pub const NODE_LABEL: Path = Path {
    endpoint: Some(0),
    cluster: Some(0x28),
    leaf: Some(5),
    index: Index::Whole,
};

/// The list of the cluster Bench.
pub const BENCH_LIST: Path = Path {
    endpoint: Some(1),
    cluster: Some(0xfff1_fc00),
    leaf: Some(0),
    index: Index::Whole,
};

/// The access control list.
pub const ACCESS_LIST: Path = Path {
    endpoint: Some(0),
    cluster: Some(0x1f),
    leaf: Some(0),
    index: Index::Whole,
};

/// All attributes of endpoint 1.
pub const ENDPOINT_ONE: Path = Path {
    endpoint: Some(1),
    cluster: None,
    leaf: None,
    index: Index::Whole,
};

/// A read of one path.
pub fn read_of(alloc: Global, path: Path, filtered: bool) -> Result<Request, AllocError>
    ensures { IfOk result (λ request. request ≡ read_of path filtered) }
{
    Ok(Request::Read {
        paths: only(alloc, path)?,
        events: Paths::new(alloc),
        minimum: 0,
        filtered,
        versions: Versions::new(alloc),
    })
}

/// A write of one attribute.
pub fn write_of(alloc: Global, path: Path, value: Value) -> Result<Request, AllocError>
    ensures { IfOk result (λ request. request ≡ write_of path value) }
{
    let mut items = Writes::new(alloc);
    items.push(WriteItem {
        path,
        version: None,
        value,
    })?;
    Ok(Request::Write {
        suppress: false,
        timed: false,
        items,
    })
}

/// That On/Off is toggled.
pub fn toggle_request(alloc: Global) -> Request
    ensures { result ≡ toggle_request }
{
    Request::Invoke {
        suppress: false,
        timed: false,
        command: Place {
            endpoint: 1,
            cluster: 0x6,
            leaf: 2,
        },
        fields: Value::Struct(Members::from_vec(Vec::new(alloc))),
    }
}

/// A subscription to one path, which reports at once and at the latest after 60 seconds.
pub fn subscription_to(alloc: Global, path: Path) -> Result<Request, AllocError>
    ensures { IfOk result (λ request. request ≡ subscription_to path) }
{
    Ok(Request::Subscribe {
        keep: true,
        floor: 0,
        ceiling: 60,
        paths: only(alloc, path)?,
        events: Paths::new(alloc),
        minimum: 0,
        filtered: true,
        versions: Versions::new(alloc),
    })
}

fn only(alloc: Global, path: Path) -> Result<Paths, AllocError>
    ensures { IfOk result (λ paths. paths ≡ path ∷ []) }
{
    let mut paths = Paths::new(alloc);
    paths.push(path)?;
    Ok(paths)
}

/// The label that the event of this number writes.
#[tactic(auto, unfolding(crate::specs::Requests::label))]
pub fn label(alloc: Global, number: u32) -> Result<Value, AllocError>
    ensures { IfOk result (λ value. value ≡ label number) }
{
    let mut text = Vec::from_slice(alloc, b"n")?;
    let mut buffer = Buffer::new();
    text.extend_from_slice(buffer.format(number).as_bytes())?;
    Ok(Value::Text(Bytes::from_vec(text)))
}

/// The list of one item that the event of this number writes.
#[tactic(auto, unfolding(crate::specs::Requests::bench_items))]
pub fn bench_items(alloc: Global, number: u32) -> Result<Value, AllocError>
    ensures { IfOk result (λ value. value ≡ bench_items number) }
{
    let name = Bytes::from_slice(alloc, b"k")?;
    let secret = Bytes::from_slice(alloc, (number as u64).to_be_bytes().as_slice())?;
    let mut fields = Vec::new(alloc);
    fields.push((Tag::Context(1), Value::Text(name)))?;
    fields.push((Tag::Context(2), Value::Octets(secret)))?;
    let mut items = Vec::new(alloc);
    items.push((Tag::Anonymous, Value::Struct(Members::from_vec(fields))))?;
    Ok(Value::Array(Members::from_vec(items)))
}
