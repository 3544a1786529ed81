//! The layouts of a schema by their numbers, each built as a value where it is asked for.

ghost use Rattle.std.specs.Prelude.{◌≡◌, ◌<◌, IfOk, IfErr, IfSome, option_map, length, slice_get, Some};
ghost use Rattle.typed_tree.specs.References.{value_of_ref, value_of_tree};
ghost use Rattle.layout_schema.specs.declared.fault.SchemaFault.{SchemaFault};
ghost use Rattle.layout_schema.specs.Shapes.{entry_in, entry_of, is_walked, unwalked};
ghost use Rattle.layout_schema.specs.Reading.{AreEntries, IsLayoutValue, IsSpelledLayout};
ghost use Rattle.layout_schema.specs.Reading.{bytes_told, entry_told, child_told, layouts_told};

use crate::fault::SchemaFault;
use crate::table::LayoutBytes;
use compact_codec::build;
use std::alloc::Global;
use thrift_idl::TypeRef;
use typed_tree::{Room, Tree, TreeRef};

/// The layouts of a schema, by rising number, and their type.
#[derive(Clone, Copy)]
pub(crate) struct Entries<'a> {
    pub(crate) ty: TypeRef<'a>,
    pub(crate) layouts: &'a [LayoutBytes<'a>],
}

/// What a schema says of one node: a value of the type `Layout`.
#[derive(Clone, Copy)]
pub(crate) struct EntryRef<'a> {
    pub(crate) layout: TreeRef<'a>,
}

/// What a layout says of a child: its field, its number, and minus its bit offset.
#[derive(Clone, Copy)]
pub(crate) struct ChildRef {
    pub(crate) field: i16,
    pub(crate) number: i16,
    pub(crate) offset: i16,
}

// Whether a number is one of the first so many, from 0 on.
fn is_among_first(count: u32, number: i64) -> bool
    ensures { result ≡ is_walked count number }
{
    0 <= number && number < i64::from(count)
}

impl<'a> Entries<'a> {
    // The layout at a place from 0.
    fn layout_at(self, place: usize) -> LayoutBytes<'a>
        requires { place < length self.layouts.now }
        ensures { slice_get self.entry.layouts.now place ≡ Some result }
    {
        self.layouts[place]
    }

    // The layout of this number, found by halving. `None` exactly where there is none.
    fn layout(self, number: u32) -> Option<LayoutBytes<'a>>
        requires { AreEntries self }
        ensures is { option_map (bytes_told self.entry) result ≡ entry_of (layouts_told self.entry) number }
        ensures formed { IfSome result (λ layout. IsSpelledLayout self.entry layout) }
    {
        let mut low = 0;
        let mut high = self.layouts.len();
        while low < high {
            let middle = low + (high - low) / 2;
            let layout = self.layout_at(middle);
            let key = i64::from(layout.number);
            if key == i64::from(number) {
                return Some(layout);
            }
            if key < i64::from(number) {
                low = middle + 1;
            } else {
                high = middle;
            }
        }
        None
    }

    /// The layout of this number, as a value. `None` exactly where there is none.
    pub(crate) fn entry(self, alloc: Global, number: u32) -> Result<Option<Tree>, SchemaFault>
        requires { AreEntries self }
        ensures is { IfOk result (λ found. option_map (λ tree. entry_in (value_of_tree tree)) found
            ≡ entry_of (layouts_told self.entry) number) }
        ensures formed { IfOk result (λ found. IfSome found (λ tree. IsLayoutValue (value_of_tree tree))) }
        ensures full { IfErr result (λ fault. fault ≡ SchemaFault.NoMemory) }
    {
        let Some(layout) = self.layout(number) else {
            return Ok(None);
        };
        match build(alloc, self.ty, Room::NONE, layout.bytes) {
            Ok(tree) => Ok(Some(tree)),
            Err(_) => Err(SchemaFault::NoMemory),
        }
    }

    /// The least number of a layout that is none of the first so many.
    pub(crate) fn unwalked(self, walked: u32) -> Option<i16>
        requires { AreEntries self }
        ensures { result ≡ unwalked (layouts_told self.entry) walked }
    {
        for i in 0..self.layouts.len() {
            let layout = self.layout_at(i);
            if !is_among_first(walked, i64::from(layout.number)) {
                return Some(layout.number);
            }
        }
        None
    }
}

impl<'a> EntryRef<'a> {
    /// The layout that was built.
    pub(crate) fn of(tree: &'a Tree) -> EntryRef<'a>
        ensures { value_of_ref result.layout ≡ value_of_tree tree.now }
    {
        EntryRef { layout: tree.top() }
    }

    /// The size in bytes, which is 0 in each schema that is read.
    pub(crate) fn size(self) -> i64
        requires { IsLayoutValue (value_of_ref self.layout) }
        ensures { result ≡ (entry_told self.entry).size }
    {
        self.layout.field_at(0).int()
    }

    /// The width in bits.
    pub(crate) fn bits(self) -> i16
        requires { IsLayoutValue (value_of_ref self.layout) }
        ensures { result ≡ (entry_told self.entry).bits }
    {
        self.layout.field_at(1).int() as i16
    }

    /// The type name.
    pub(crate) fn name(self) -> &'a [u8]
        requires { IsLayoutValue (value_of_ref self.layout) }
        ensures { result.now ≡ (entry_told self.entry).name }
    {
        self.layout.field_at(3).bytes()
    }

    /// The base; 0 in version 1, whose layouts have none.
    pub(crate) fn base(self) -> i64
        requires { IsLayoutValue (value_of_ref self.layout) }
        ensures { result ≡ (entry_told self.entry).base }
    {
        match self.layout.field(5) {
            Some(base) => base.int(),
            None => 0,
        }
    }

    /// How many children there are.
    pub(crate) fn child_count(self) -> u64
        requires { IsLayoutValue (value_of_ref self.layout) }
        ensures { result ≡ length (entry_told self.entry).children }
    {
        self.layout.field_at(2).len()
    }

    /// A child, by its place from 0 in the order of fields.
    pub(crate) fn child(self, place: u64) -> ChildRef
        requires layout { IsLayoutValue (value_of_ref self.layout) }
        requires inside { place < length (entry_told self).children }
        ensures { slice_get (entry_told self.entry).children place ≡ Some (child_told result) }
    {
        let (field, child) = self.layout.field_at(2).entry(place);
        ChildRef {
            field: field.int() as i16,
            number: child.field_at(0).int() as i16,
            offset: child.field_at(1).int() as i16,
        }
    }
}
