//! Reports, whose items are put into payloads greedily.

ghost use Rattle.std.specs.Prelude.{◌≡◌, ◌<◌, ◌≤◌, ◌++◌, [], ◌∷◌, length, take, drop, true, false, None, IfOk, OnOk};
ghost use Rattle.mt_tlv.specs.Narrow.{narrow_elements};
ghost use Rattle.mt_tlv.specs.Tree.{none};
ghost use Rattle.mt_tlv.specs.View.{elements, tree, value_of};
ghost use Rattle.mt_tlv.specs.declared.value.Value.TheVariants as values;
ghost use Rattle.mt_model.specs.Trees.{untagged};
ghost use Rattle.mt_model.specs.declared.messages.message.Item.TheVariants as items;
ghost use Rattle.mt_model.specs.messages.Blocks.{item_block, item_tree};
ghost use Rattle.mt_im_out.specs.Chunks.{appended, is_event, split_item, event_items, parts_of, report_payloads};
ghost use Rattle.mt_im_out.specs.Packing.{optional_bytes, blocks_payload, packed, joins, put, put_all, put_attribute, put_attributes, finished};

use crate::blocks::{write_attribute, write_item};
use crate::fields::{
    ARRAY, STRUCTURE, close, end_message, open, open_field, write_optional, write_truth,
};
use mt_model::limits::ITEM_BYTES;
use mt_model::opcode::REPORT_DATA;
use mt_model::{Index, Item, Path, Payload, Payloads};
use mt_tlv::{Bytes, Members, Tag, Value, values_are_trees};
use std::alloc::{AllocError, Global};
use std::mem;

// How much room a block is given first, so that bytes need not grow from a few on.
const FIRST_ROOM: usize = 64;

// The most bytes that a payload has beside its blocks.
const ROOM_BESIDE: usize = 32;

/// The payloads of a report. `suppress` says that the last one wants no confirmation.
pub fn report(
    alloc: Global,
    subscription: Option<u32>,
    items: &[Item],
    suppress: bool,
) -> Result<Payloads, AllocError>
    ensures { IfOk result (λ payloads. payloads ≡ report_payloads subscription suppress (parts_of items.now)) }
{
    let mut packing = Packing::new(alloc, subscription);
    packing.put_attributes(items)?;
    let events = event_blocks(alloc, items)?;
    packing.finish(events.as_slice(), suppress)
}

// The payloads of a report as they are made.
#[derive(Drop)]
struct Packing {
    alloc: Global,
    subscription: Option<u32>,
    // The payloads that are whole. Each says that more follows.
    payloads: Vec<Payload>,
    // The blocks of the payload that is begun.
    begun: Vec<u8>,
    // The block that is put next.
    block: Vec<u8>,
}

impl Packing {
    fn new(alloc: Global, subscription: Option<u32>) -> Self
        ensures { packed result ≡ record { subscription = subscription; done = []; begun = [] } }
    {
        Packing {
            alloc,
            subscription,
            payloads: Vec::new(alloc),
            begun: Vec::new(alloc),
            block: Vec::new(alloc),
        }
    }

    fn put_attributes(&mut self, items: &[Item]) -> Result<(), AllocError>
        ensures { OnOk result (packed self.new ≡ put_attributes (packed self.old) items.now) }
    {
        'items: for item in items {
            self.put_attribute(item)?;
        }
        Ok(())
    }

    fn put_attribute(&mut self, item: &Item) -> Result<(), AllocError>
        ensures { OnOk result (packed self.new ≡ put_attribute (packed self.old) item.now) }
    {
        if is_of_event(item) {
            return Ok(());
        }
        self.put_item(item)
    }

    // Puts an item, or what stands for it where no payload takes it. Most items are written where they stay,
    // behind those of the payload that is begun.
    #[tactic(auto, using(crate::proofs::Splits::short_stays, crate::proofs::Splits::joins_where_short))]
    fn put_item(&mut self, item: &Item) -> Result<(), AllocError>
        ensures { OnOk result (packed self.new ≡ put_all (packed self.old) (split_item item.now)) }
    {
        let before = self.begun.len();
        self.begun.reserve(FIRST_ROOM)?;
        write_item(item, &mut self.begun)?;
        if self.begun.len() <= ITEM_BYTES {
            return Ok(());
        }
        self.take_back(before)?;
        self.put_apart(item)
    }

    // Takes what stands behind so many bytes of the payload that is begun to be the block.
    fn take_back(&mut self, before: usize) -> Result<(), AllocError>
        requires { before ≤ length self.old.begun.items }
        ensures begun { OnOk result (packed self.new ≡ record (packed self.old) { begun = take before self.old.begun.items }) }
        ensures block { OnOk result (self.new.block.items ≡ drop before self.old.begun.items) }
    {
        self.block.clear();
        self.block.extend_from_slice(&self.begun[before..])?;
        self.begun.truncate(before);
        Ok(())
    }

    // Puts an item whose block is made.
    #[tactic(auto, using(crate::proofs::Splits::short_stays))]
    fn put_apart(&mut self, item: &Item) -> Result<(), AllocError>
        requires { self.old.block.items ≡ item_block item.now }
        ensures { OnOk result (packed self.new ≡ put_all (packed self.old) (split_item item.now)) }
    {
        if self.block.len() <= ITEM_BYTES {
            return self.put_block();
        }
        match item {
            Item::Attribute {
                path,
                version,
                value,
            } => self.put_long(path, *version, value),
            Item::Refused { .. } => self.put_block(),
            Item::Event(_) => self.put_block(),
            Item::EventRefused { .. } => self.put_block(),
        }
    }

    // Puts the block, which is that of data that no payload takes. A list is put as the empty list and
    // each of its elements.
    #[tactic(auto, using(crate::proofs::Splits::long_splits))]
    fn put_long(&mut self, path: &Path, version: u32, value: &Value) -> Result<(), AllocError>
        requires block { self.old.block.items ≡ item_block (items.Attribute path.now version value.now) }
        requires long { ITEM_BYTES < length self.old.block.items }
        ensures { OnOk result (packed self.new ≡ put_all (packed self.old) (split_item (items.Attribute path.now version value.now))) }
    {
        match value {
            Value::Array(elements) => self.put_list(path, version, elements),
            Value::Int(_) => self.put_block(),
            Value::Uint(_) => self.put_block(),
            Value::Bool(_) => self.put_block(),
            Value::Text(_) => self.put_block(),
            Value::Octets(_) => self.put_block(),
            Value::Null => self.put_block(),
            Value::Bits32(_) => self.put_block(),
            Value::Bits64(_) => self.put_block(),
            Value::Struct(_) => self.put_block(),
            Value::List(_) => self.put_block(),
        }
    }

    // Puts a list as the empty list and each of its elements.
    fn put_list(&mut self, path: &Path, version: u32, elements: &Members) -> Result<(), AllocError>
        ensures { OnOk result (packed self.new ≡ put_all (packed self.old) (items.Attribute path.now version (values.Array none) ∷ appended path.now version elements.now)) }
    {
        let empty = Value::Array(Members::from_vec(Vec::new(self.alloc)));
        self.put_data(path, version, &empty)?;
        self.put_elements(path, version, elements.as_slice())
    }

    fn put_elements(
        &mut self,
        path: &Path,
        version: u32,
        members: &[(Tag, Value)],
    ) -> Result<(), AllocError>
        ensures { OnOk result (packed self.new ≡ put_all (packed self.old) (appended path.now version (elements members.now))) }
    {
        let end = Path {
            index: Index::Append,
            ..*path
        };
        'members: for (_, element) in members {
            self.put_element(&end, version, element)?;
        }
        Ok(())
    }

    // An element of a list is data as any value is.
    fn put_element(&mut self, path: &Path, version: u32, element: &Value) -> Result<(), AllocError>
        ensures { OnOk result (packed self.new ≡ put (packed self.old) (item_block (items.Attribute path.now version (value_of (tree element.now))))) }
    {
        values_are_trees();
        self.put_data(path, version, element)
    }

    fn put_data(&mut self, path: &Path, version: u32, value: &Value) -> Result<(), AllocError>
        ensures { OnOk result (packed self.new ≡ put (packed self.old) (item_block (items.Attribute path.now version value.now))) }
    {
        self.block.clear();
        self.block.reserve(FIRST_ROOM)?;
        write_attribute(path, version, value, &mut self.block)?;
        self.put_block()
    }

    fn put_block(&mut self) -> Result<(), AllocError>
        ensures { OnOk result (packed self.new ≡ put (packed self.old) self.old.block.items) }
    {
        if self.begun.is_empty() {
            mem::swap(&mut self.begun, &mut self.block);
            Ok(())
        } else if self.joins() {
            self.begun.extend_from_slice(&self.block)
        } else {
            self.begin_with_block()
        }
    }

    // Whether the block joins those of the payload that is begun.
    fn joins(&self) -> bool
        ensures { result ≡ joins self.now.begun.items self.now.block.items }
    {
        self.begun.is_empty() || self.begun.len().saturating_add(self.block.len()) <= ITEM_BYTES
    }

    // The payload that is begun is whole, and the block begins the next.
    fn begin_with_block(&mut self) -> Result<(), AllocError>
        ensures { OnOk result (packed self.new ≡ record (packed self.old) {
          done = self.old.payloads.items ++ blocks_payload self.old.subscription self.old.begun.items [] true false ∷ [];
          begun = self.old.block.items;
        }) }
    {
        let payload = report_of(self.alloc, self.subscription, &self.begun, &[], true, false)?;
        self.payloads.push(payload)?;
        self.begun.clear();
        self.begun.extend_from_slice(&self.block)
    }

    // The payloads, with the blocks of events in one of their own.
    fn finish(mut self, events: &[u8], suppress: bool) -> Result<Payloads, AllocError>
        ensures { IfOk result (λ payloads. payloads ≡ finished (packed self) events.now suppress) }
    {
        if self.begun.is_empty() {
            return self.end_with(&[], events, suppress);
        }
        let begun = mem::replace(&mut self.begun, Vec::new(self.alloc));
        if events.is_empty() {
            return self.end_with(&begun, &[], suppress);
        }
        let payload = report_of(self.alloc, self.subscription, &begun, &[], true, false)?;
        self.payloads.push(payload)?;
        self.end_with(&[], events, suppress)
    }

    // The payloads, with a last one of these blocks.
    fn end_with(
        mut self,
        attributes: &[u8],
        events: &[u8],
        suppress: bool,
    ) -> Result<Payloads, AllocError>
        ensures { IfOk result (λ payloads. payloads ≡ self.payloads.items ++ blocks_payload self.subscription attributes.now events.now false suppress ∷ []) }
    {
        let payload = report_of(
            self.alloc,
            self.subscription,
            attributes,
            events,
            false,
            suppress,
        )?;
        self.payloads.push(payload)?;
        Ok(Payloads::from_vec(self.payloads))
    }
}

// Whether an item is that of an event.
fn is_of_event(item: &Item) -> bool
    ensures { result ≡ is_event item.now }
{
    match item {
        Item::Attribute { .. } => false,
        Item::Refused { .. } => false,
        Item::Event(_) => true,
        Item::EventRefused { .. } => true,
    }
}

// The blocks of the items of events.
#[tactic(auto, using(crate::proofs::Tails::events))]
fn event_blocks(alloc: Global, items: &[Item]) -> Result<Vec<u8>, AllocError>
    ensures { IfOk result (λ bytes. bytes.items ≡ narrow_elements (untagged item_tree (event_items items.now))) }
{
    let mut blocks = Vec::new(alloc);
    'items: for item in items {
        write_if_event(item, &mut blocks)?;
    }
    Ok(blocks)
}

fn write_if_event(item: &Item, out: &mut Vec<u8>) -> Result<(), AllocError>
    ensures { OnOk result (out.new.items ≡ out.old.items ++ narrow_elements (untagged item_tree (event_items (item.now ∷ [])))) }
{
    if !is_of_event(item) {
        return Ok(());
    }
    write_item(item, out)
}

// A payload of a report, from the blocks of its items.
fn report_of(
    alloc: Global,
    subscription: Option<u32>,
    attributes: &[u8],
    events: &[u8],
    follows: bool,
    suppress: bool,
) -> Result<Payload, AllocError>
    ensures { IfOk result (λ payload. payload ≡ blocks_payload subscription attributes.now events.now follows suppress) }
{
    let blocks = attributes.len().saturating_add(events.len());
    let mut out = Vec::with_capacity(alloc, blocks.saturating_add(ROOM_BESIDE))?;
    open(STRUCTURE, &mut out)?;
    write_optional(0, subscription, &mut out)?;
    write_blocks(1, attributes, &mut out)?;
    write_blocks(2, events, &mut out)?;
    write_truth(3, follows, &mut out)?;
    write_truth(4, suppress, &mut out)?;
    end_message(&mut out)?;
    Ok(Payload {
        opcode: REPORT_DATA,
        bytes: Bytes::from_vec(out),
        deadline: None,
    })
}

// Blocks as an array under a context tag, where there are any.
fn write_blocks(tag: u8, blocks: &[u8], out: &mut Vec<u8>) -> Result<(), AllocError>
    ensures { OnOk result (out.new.items ≡ out.old.items ++ optional_bytes tag blocks.now) }
{
    if blocks.is_empty() {
        return Ok(());
    }
    open_field(tag, ARRAY, out)?;
    out.extend_from_slice(blocks)?;
    close(out)
}
