//! Measuring types.

ghost use Rattle.std.specs.Prelude.{◌≡◌, ◌+◌, List, [], ℕ, max, map};
ghost use Rattle.idl_profile.specs.Types as types;
ghost use Rattle.idl_profile.specs.Types.{TypeTree, list_of, set_of, map_of, named, Fields, no_fields};
ghost use Rattle.idl_profile.specs.Measures.{fields as fields_in, scalar_tree, at, tree, trees};
ghost use Rattle.idl_profile.specs.Judged.{measured_struct};
ghost use Rattle.idl_definitions.specs.Sizes.{add, size, inside, row_size as row_size_of, table_size as table_size_of, with_branch as with_branch_of, struct_size as struct_size_of, judged_size as judged_size_of, extra as extra_of};
ghost use Rattle.idl_profile.specs.Meaning.{Ty};
ghost use Rattle.idl_fields.specs.Nodes.{type_at, node_type};
ghost use Rattle.idl_fields.specs.View.{types_in, entries_in, named_in, word_type, contained, written_type, written_fields};
ghost use Rattle.idl_definitions.specs.Sized.{IsSized};

use idl_fields::draft::{Container, TypeNode, TypeWord, WrittenField, WrittenType};
use idl_fields::{Scope, Size};
use idl_grammar::Fault;
use idl_profile::{BaseType, Need};

fn capped(a: u32, b: u32) -> u32
    ensures { result ≡ add a b }
{
    a.saturating_add(b).min(65535)
}

fn greater(a: u32, b: u32) -> u32
    ensures { result ≡ max a b }
{
    a.max(b)
}

#[tactic(auto, unfolding(crate::specs::Sizes::size))]
fn scalar_size(s: BaseType) -> Size
    ensures { result ≡ size (scalar_tree s) }
{
    match s {
        BaseType::Flag => Size {
            depth: 1,
            nodes: 1,
            bits: 1,
            widest: 0,
        },
        BaseType::I8 => Size {
            depth: 1,
            nodes: 1,
            bits: 8,
            widest: 0,
        },
        BaseType::I16 => Size {
            depth: 1,
            nodes: 1,
            bits: 16,
            widest: 0,
        },
        BaseType::I32 => Size {
            depth: 1,
            nodes: 1,
            bits: 32,
            widest: 0,
        },
        BaseType::I64 => Size {
            depth: 1,
            nodes: 1,
            bits: 64,
            widest: 0,
        },
        BaseType::Text | BaseType::Bytes => Size {
            depth: 1,
            nodes: 3,
            bits: 64,
            widest: 0,
        },
    }
}

fn row_size(s: Size) -> Size
    ensures { result ≡ row_size_of s }
{
    Size {
        depth: capped(s.depth, 1),
        nodes: capped(s.nodes, 3),
        bits: 64,
        widest: s.widest,
    }
}

fn table_size(s: Size, t: Size) -> Size
    ensures { result ≡ table_size_of s t }
{
    Size {
        depth: capped(greater(s.depth, t.depth), 1),
        nodes: capped(capped(s.nodes, t.nodes), 4),
        bits: 64,
        widest: greater(capped(s.bits, t.bits), greater(s.widest, t.widest)),
    }
}

fn extra(need: Need, n: u32) -> u32
    ensures { result ≡ extra_of need n }
{
    match need {
        Need::Optional => n,
        Need::Plain | Need::Required => 0,
    }
}

fn with_branch(need: Need, t: Size, s: Size) -> Size
    ensures { result ≡ with_branch_of need t s }
{
    Size {
        depth: greater(t.depth, s.depth),
        nodes: capped(capped(t.nodes, extra(need, 2)), s.nodes),
        bits: capped(capped(t.bits, extra(need, 1)), s.bits),
        widest: greater(t.widest, s.widest),
    }
}

fn struct_size(s: Size) -> Size
    ensures { result ≡ struct_size_of s }
{
    Size {
        depth: capped(s.depth, 1),
        nodes: capped(s.nodes, 1),
        bits: s.bits,
        widest: s.widest,
    }
}

fn judged_size(s: Size) -> Result<(), Fault>
    ensures { result ≡ judged_size_of s }
{
    if s.depth > 32 {
        Err(Fault::TooDeep)
    } else if s.nodes > 4096 {
        Err(Fault::TooManyNodes)
    } else if s.bits > 32767 || s.widest > 32767 {
        Err(Fault::StructTooWide)
    } else {
        Ok(())
    }
}

/// The size of an enum or struct.
fn size_at(sizes: &[Size], n: u32) -> Size
    ensures { (ts : List TypeTree) → sizes.now ≡ map size ts → result ≡ size (at ts n) }
{
    match sizes.get(n as usize) {
        Some(s) => *s,
        None => scalar_size(BaseType::Flag),
    }
}

/// The size of the type at a place.
fn type_size_at(sizes: &[Size], place: u32) -> Size
    ensures { (types : List Ty) (ts : List TypeTree) → sizes.now ≡ map (λ t. size (tree ts t)) types → result ≡ size (tree ts (type_at types place)) }
{
    match sizes.get(place as usize) {
        Some(s) => *s,
        None => scalar_size(BaseType::Flag),
    }
}

/// The size of a type.
#[tactic(auto, using(crate::proofs::SizeLaws::size_steps))]
pub fn size_of_node(text: &str, scope: &Scope, node: TypeNode) -> Size
    requires { IsSized text.now scope.now }
    ensures { result ≡ size (tree (trees (named_in text.now scope.now)) (node_type (types_in scope.now.types) node)) }
{
    match node {
        TypeNode::Base(s) => scalar_size(s),
        TypeNode::Enum(n) => size_at(&scope.sizes, n),
        TypeNode::Struct(n) => size_at(&scope.sizes, n),
        TypeNode::List(x) => row_size(type_size_at(&scope.type_sizes, x)),
        TypeNode::Set(x) => row_size(type_size_at(&scope.type_sizes, x)),
        TypeNode::Map(x, y) => {
            let x = type_size_at(&scope.type_sizes, x);
            let y = type_size_at(&scope.type_sizes, y);
            table_size(x, y)
        }
    }
}

// The size of a type that is one word.
fn size_of_word(text: &str, scope: &Scope, word: TypeWord) -> Size
    requires { IsSized text.now scope.now }
    ensures { result ≡ size (tree (trees (named_in text.now scope.now)) (word_type (entries_in text.now scope.now) word)) }
{
    size_of_node(text, scope, scope.type_of(word))
}

// The size of a type of this size with a container around it.
#[tactic(auto, using(crate::proofs::SizeLaws::size_steps))]
fn size_around(text: &str, scope: &Scope, inside: Size, container: Container) -> Size
    requires { IsSized text.now scope.now }
    ensures { (t : Ty) → inside ≡ size (tree (trees (named_in text.now scope.now)) t) → result ≡ size (tree (trees (named_in text.now scope.now)) (contained (entries_in text.now scope.now) t container)) }
{
    match container {
        Container::List => row_size(inside),
        Container::Set => row_size(inside),
        Container::Map(key) => table_size(size_of_word(text, scope, key), inside),
    }
}

/// The size of a type as it is written.
fn size_of_type(text: &str, scope: &Scope, ty: &WrittenType) -> Size
    requires { IsSized text.now scope.now }
    ensures { result ≡ size (tree (trees (named_in text.now scope.now)) (written_type (entries_in text.now scope.now) ty.now)) }
{
    let mut total = size_of_word(text, scope, ty.word);
    for container in &ty.around {
        total = size_around(text, scope, total, *container);
    }
    total
}

/// The size of all fields.
fn inside_of(text: &str, scope: &Scope, fields: &[WrittenField]) -> Size
    requires { IsSized text.now scope.now }
    ensures { result ≡ inside (fields_in (trees (named_in text.now scope.now)) (written_fields text.now (entries_in text.now scope.now) fields.now)) }
{
    let mut total = Size {
        depth: 0,
        nodes: 0,
        bits: 0,
        widest: 0,
    };
    for i in (0..fields.len()).rev() {
        let field = &fields[i];
        total = with_branch(field.need, size_of_type(text, scope, &field.ty), total);
    }
    total
}

/// What the measures of a struct have against it.
pub fn measured(text: &str, scope: &Scope, fields: &[WrittenField]) -> Result<(), Fault>
    requires { IsSized text.now scope.now }
    ensures { result ≡ measured_struct (named_in text.now scope.now) (written_fields text.now (entries_in text.now scope.now) fields.now) }
{
    judged_size(struct_size(inside_of(text, scope, fields)))
}

/// The size of an enum.
#[tactic(auto, unfolding(crate::specs::Sizes::size))]
pub fn enum_size() -> Size
    ensures { (w : List ℕ) (ms : List types.Member) → result ≡ size (named (types.enum_of w ms)) }
{
    Size {
        depth: 1,
        nodes: 1,
        bits: 32,
        widest: 0,
    }
}

/// The size of a struct with these fields.
pub fn size_of_struct(text: &str, scope: &Scope, fields: &[WrittenField]) -> Size
    requires { IsSized text.now scope.now }
    ensures { (w : List ℕ) → result ≡ size (named (types.struct_of w (fields_in (trees (named_in text.now scope.now)) (written_fields text.now (entries_in text.now scope.now) fields.now)))) }
{
    struct_size(inside_of(text, scope, fields))
}
