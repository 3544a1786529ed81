//! The accessors of trees. None takes memory, and none walks more than the node that it reads.
ghost use Rattle.std.specs.Prelude.{◌≡◌, ◌↔◌, ◌<◌, ◌≤◌, ◌+◌, ◌^◌, length, map, true, IsTrue, nat_lt, option_map, IfSome};
ghost use Rattle.std.specs.List.{list_all};
ghost use Rattle.std.specs.Str.{is_utf8};
ghost use Rattle.frozen_model.specs.Values.{Truth, Number, One, Bytes, Present, NoValue, count, nth, key_less};
ghost use Rattle.key_order.specs.Keys.{value_of as key_value, IsOneKind};
ghost use Rattle.typed_tree.specs.Parts.{IsFlag, IsInt, IsBytes, IsRow, IsMap, IsItems, IsRecord, IsPresent};
ghost use Rattle.typed_tree.specs.Parts.{items_of, ids_of, fields_of, field_of, find_field};
ghost use Rattle.typed_tree.specs.Spots.{part, pick, pair, by_twos, linked, all_linked, ids_rise, has_block, fits_at};
ghost use Rattle.typed_tree.specs.Spots.{value_of};
ghost use Rattle.typed_tree.specs.Pools.{store_of, values_of};
ghost use Rattle.typed_tree.specs.References.{value_of_ref, value_of_tree, kind_of_ref, kind_of_tree, HasForm};
ghost use Rattle.typed_tree.specs.References.{spot_kind, value_at};
ghost use Rattle.typed_tree.specs.Made.{RefIsMade, TreeIsMade, MadeAt, spot_at, parts_of, ids_in, kind_at, kind_under};
ghost use Rattle.typed_tree.specs.Fields.{id_number};
ghost use Rattle.typed_tree.specs.Ranges.{pair_kinds};
ghost use Rattle.frozen_model.specs.Trees.{KindTree, KindTrees, AList, ASet, AMap, ItemRange, Optional, Struct};

use crate::pool::Pool;
use crate::spot::{Link, Run, Spot};
use crate::tree::{Tree, TreeKind, TreeRef};
use block_region::Block;
use key_order::Key;
use std::cmp::Ordering;
use std::str;

// The bytes of a block of the pool.
fn bytes_at(pool: &Pool, at: Block) -> &[u8]
    requires { has_block (store_of pool.now) at ≡ true }
    ensures { result.now ≡ part (store_of pool.now).bytes at }
{
    pool.bytes.bytes(&at)
}

// The text of a block of the pool.
fn text_at(pool: &Pool, at: Block) -> &str
    requires there { has_block (store_of pool.now) at ≡ true }
    requires text { is_utf8 (part (store_of pool.now).bytes at) ≡ true }
    ensures { result.now ≡ part (store_of pool.now).bytes at }
{
    unsafe { str::from_utf8_unchecked(bytes_at(pool, at)) }
}

impl Tree {
    /// The whole value.
    pub fn top(&self) -> TreeRef<'_>
        ensures value { value_of_ref result ≡ value_of_tree self.now }
        ensures kind { kind_of_ref result ≡ kind_of_tree self.now }
        ensures made { (t : KindTree) → TreeIsMade t self.now → RefIsMade t result }
    {
        TreeRef {
            pool: &self.pool,
            node: self.top,
        }
    }
}

impl<'a> TreeRef<'a> {
    fn spot(self) -> Spot
        ensures fit { fits_at (store_of self.entry.pool.now) self.entry.node result ≡ true }
        ensures value { value_of_ref self.entry
            ≡ value_of (store_of self.entry.pool.now) (values_of self.entry.pool.now) result }
        ensures kind { spot_kind result ≡ kind_of_ref self.entry }
        ensures is { result ≡ spot_at self.entry.pool.now.nodes.items self.entry.node }
    {
        self.pool.nodes[self.node as usize]
    }

    /// As what the value was made.
    pub fn kind(self) -> TreeKind
        ensures kind { result ≡ kind_of_ref self.entry }
        ensures form { HasForm result (value_of_ref self.entry) }
    {
        match self.spot() {
            Spot::Flag(_) => TreeKind::Flag,
            Spot::Int(_) => TreeKind::Int,
            Spot::Text(_) => TreeKind::Text,
            Spot::Bytes(_) => TreeKind::Bytes,
            Spot::List(_) => TreeKind::List,
            Spot::Set(_) => TreeKind::Set,
            Spot::Map(_) => TreeKind::Map,
            Spot::Struct(_) => TreeKind::Struct,
            Spot::Absent => TreeKind::Absent,
            Spot::Present(_) => TreeKind::Present,
        }
    }

    /// Whether a flag is set.
    pub fn flag(self) -> bool
        requires { IsFlag (value_of_ref self) }
        ensures { value_of_ref self.entry ≡ One (Truth result) }
    {
        match self.spot() {
            Spot::Flag(x) => x,
            _ => false,
        }
    }

    /// A number.
    pub fn int(self) -> i64
        requires { IsInt (value_of_ref self) }
        ensures { value_of_ref self.entry ≡ One (Number result) }
    {
        match self.spot() {
            Spot::Int(x) => x,
            _ => 0,
        }
    }

    /// A text, of what was made as one.
    pub fn text(self) -> &'a str
        requires { kind_of_ref self ≡ TreeKind.Text }
        ensures { value_of_ref self.entry ≡ Bytes result.now }
    {
        let pool = self.pool;
        match self.spot() {
            Spot::Text(at) => text_at(pool, at),
            _ => "",
        }
    }

    /// Bytes; of a text its UTF-8.
    pub fn bytes(self) -> &'a [u8]
        requires { IsBytes (value_of_ref self) }
        ensures { value_of_ref self.entry ≡ Bytes result.now }
    {
        let pool = self.pool;
        match self.spot() {
            Spot::Text(at) | Spot::Bytes(at) => bytes_at(pool, at),
            _ => &[],
        }
    }

    /// The key that a flag, a number, a text or bytes are.
    pub fn key(self) -> Key<'a>
        requires { IsOneKind (value_of_ref self) (value_of_ref self) }
        ensures { key_value result ≡ value_of_ref self.entry }
    {
        let pool = self.pool;
        match self.spot() {
            Spot::Flag(x) => Key::Flag(x),
            Spot::Int(x) => Key::Number(x),
            Spot::Text(at) | Spot::Bytes(at) => Key::Bytes(bytes_at(pool, at)),
            _ => Key::Bytes(&[]),
        }
    }

    /// The value that is present.
    pub fn inner(self) -> TreeRef<'a>
        requires { IsPresent (value_of_ref self) }
        ensures value { value_of_ref self.entry ≡ Present (value_of_ref result) }
        ensures made { (t : KindTree) → RefIsMade (Optional tt t) self.entry → RefIsMade t result }
    {
        if let Spot::Present(node) = self.spot() {
            return TreeRef {
                pool: self.pool,
                node,
            };
        }
        self
    }
}

impl<'a> TreeRef<'a> {
    // The links at a run.
    fn links(self, run: Run) -> &'a [Link]
        requires { all_linked (store_of self.pool.now) self.node run ≡ true }
        ensures links { result.now ≡ linked (store_of self.entry.pool.now) run }
        ensures below { list_all (λ l. nat_lt l.node self.entry.node) result.now ≡ true }
        ensures few { length result.now < 2 ^ 32 }
    {
        let first = run.first as usize;
        &self.pool.links[first..first + run.count as usize]
    }

    // The links to the items of a list or a set; of any other value none.
    fn items(self) -> &'a [Link]
        ensures items { IsRow (value_of_ref self.entry)
            → pick (values_of self.entry.pool.now) result.now ≡ items_of (value_of_ref self.entry) }
        ensures parts { IsRow (value_of_ref self.entry) → map (λ l. l.node) result.now
            ≡ parts_of (store_of self.entry.pool.now) (spot_at self.entry.pool.now.nodes.items self.entry.node) }
        ensures below { list_all (λ l. nat_lt l.node self.entry.node) result.now ≡ true }
        ensures few { length result.now < 2 ^ 32 }
    {
        match self.spot() {
            Spot::List(run) | Spot::Set(run) => self.links(run),
            _ => &[],
        }
    }

    // The links to the keys and the values of a map by turns; of any other value none.
    fn turns(self) -> &'a [Link]
        ensures pairs { IsMap (value_of_ref self.entry)
            → by_twos (pick (values_of self.entry.pool.now) result.now) ≡ items_of (value_of_ref self.entry) }
        ensures parts { IsMap (value_of_ref self.entry) → map (λ l. l.node) result.now
            ≡ parts_of (store_of self.entry.pool.now) (spot_at self.entry.pool.now.nodes.items self.entry.node) }
        ensures below { list_all (λ l. nat_lt l.node self.entry.node) result.now ≡ true }
        ensures few { length result.now < 2 ^ 32 }
    {
        match self.spot() {
            Spot::Map(run) => self.links(run),
            _ => &[],
        }
    }

    // The links to the fields of a struct; of any other value none.
    fn fields(self) -> &'a [Link]
        ensures ids { map (λ l. l.id) result.now ≡ ids_of (value_of_ref self.entry) }
        ensures fields { pick (values_of self.entry.pool.now) result.now ≡ fields_of (value_of_ref self.entry) }
        ensures parts { kind_of_ref self.entry ≡ TreeKind.Struct → map (λ l. l.node) result.now
            ≡ parts_of (store_of self.entry.pool.now) (spot_at self.entry.pool.now.nodes.items self.entry.node) }
        ensures under { kind_of_ref self.entry ≡ TreeKind.Struct → map (λ l. l.id) result.now
            ≡ ids_in (store_of self.entry.pool.now) (spot_at self.entry.pool.now.nodes.items self.entry.node) }
        ensures rising { ids_rise result.now ≡ true }
        ensures below { list_all (λ l. nat_lt l.node self.entry.node) result.now ≡ true }
        ensures few { length result.now < 2 ^ 32 }
    {
        match self.spot() {
            Spot::Struct(run) => self.links(run),
            _ => &[],
        }
    }

    // What a link to a part leads to.
    fn part(self, link: &Link) -> TreeRef<'a>
        requires { link.now.node < self.node }
        ensures value { value_of_ref result ≡ value_at self.entry.pool.now link.now.node }
        ensures made { (t : KindTree)
            → MadeAt (store_of self.entry.pool.now) self.entry.pool.now.nodes.items t link.now.node
            → RefIsMade t result }
    {
        TreeRef {
            pool: self.pool,
            node: link.node,
        }
    }

    /// How many items a list or a set has, or pairs a map.
    pub fn len(self) -> u64
        requires { IsItems (value_of_ref self) }
        ensures { result ≡ count (items_of (value_of_ref self.entry)) }
    {
        match self.spot() {
            Spot::List(run) => u64::from(run.count),
            Spot::Set(run) => u64::from(run.count),
            Spot::Map(run) => u64::from(run.count / 2),
            _ => 0,
        }
    }

    /// Whether a list, a set or a map is empty.
    pub fn is_empty(self) -> bool
        requires { IsItems (value_of_ref self) }
        ensures { IsTrue result ↔ (items_of (value_of_ref self.entry) ≡ NoValue) }
    {
        self.len() == 0
    }

    /// An item of a list or a set, by its place from 0.
    pub fn item(self, i: u64) -> TreeRef<'a>
        requires row { IsRow (value_of_ref self) }
        requires inside { i < count (items_of (value_of_ref self)) }
        ensures value { value_of_ref result ≡ nth (items_of (value_of_ref self.entry)) i }
        ensures of_list { (t : KindTree) → RefIsMade (ItemRange AList tt tt t) self.entry → RefIsMade t result }
        ensures of_set { (t : KindTree) → RefIsMade (ItemRange ASet tt tt t) self.entry → RefIsMade t result }
    {
        self.part(&self.items()[i as usize])
    }

    /// The key and the value of a pair of a map, by its place from 0.
    pub fn entry(self, i: u64) -> (TreeRef<'a>, TreeRef<'a>)
        requires map { IsMap (value_of_ref self) }
        requires inside { i < count (items_of (value_of_ref self)) }
        ensures pair { nth (items_of (value_of_ref self.entry)) i
            ≡ pair (value_of_ref result.0) (value_of_ref result.1) }
        ensures made { (key value : KindTree)
            → RefIsMade (ItemRange AMap tt tt (pair_kinds key value)) self.entry
            → RefIsMade key result.0 × RefIsMade value result.1 }
    {
        let links = self.turns();
        let at = 2 * i as usize;
        (self.part(&links[at]), self.part(&links[at + 1]))
    }

    /// A field of a struct by its place from 0, in the order of ids.
    pub fn field_at(self, i: u64) -> TreeRef<'a>
        requires { i < count (fields_of (value_of_ref self)) }
        ensures value { value_of_ref result ≡ nth (fields_of (value_of_ref self.entry)) i }
        ensures made { (ls : KindTrees) → RefIsMade (Struct ls) self.entry → RefIsMade (kind_at ls i) result }
    {
        self.part(&self.fields()[i as usize])
    }

    /// A field of a struct by its id, found by halving. `None` exactly where it has none.
    pub fn field(self, id: i16) -> Option<TreeRef<'a>>
        requires { IsRecord (value_of_ref self) }
        ensures value { option_map value_of_ref result ≡ field_of (value_of_ref self.entry) id }
        ensures made { (ls : KindTrees) → RefIsMade (Struct ls) self.entry
            → IfSome result (RefIsMade (kind_under ls (id_number id))) }
    {
        self.numbered_field(id.cast_unsigned())
    }

    // The field whose id is this number in the value.
    fn numbered_field(self, id: u16) -> Option<TreeRef<'a>>
        ensures value { let whole = value_of_ref self.entry in
            option_map value_of_ref result ≡ find_field (ids_of whole) (fields_of whole) id }
        ensures made { (ls : KindTrees) → RefIsMade (Struct ls) self.entry
            → IfSome result (RefIsMade (kind_under ls id)) }
    {
        let links = self.fields();
        match links.binary_search_by_key(&id, |link| link.id) {
            Ok(i) => Some(self.part(&links[i])),
            Err(_) => None,
        }
    }
}

/// How two keys of one kind stand to each other: false is before true, numbers go by size, and texts and bytes byte
/// by byte.
pub fn compare_keys(a: TreeRef<'_>, b: TreeRef<'_>) -> Ordering
    requires { IsOneKind (value_of_ref a) (value_of_ref b) }
    ensures less { (result ≡ Ordering.Less) ↔ (key_less (value_of_ref a.entry) (value_of_ref b.entry) ≡ true) }
    ensures equal { (result ≡ Ordering.Equal) ↔ (value_of_ref a.entry ≡ value_of_ref b.entry) }
    ensures greater { (result ≡ Ordering.Greater) ↔ (key_less (value_of_ref b.entry) (value_of_ref a.entry) ≡ true) }
{
    key_order::compare_keys(a.key(), b.key())
}
