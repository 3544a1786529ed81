//! What has been defined.

ghost use Rattle.std.specs.Prelude.{◌≡◌, ◌≢◌, ◌++◌, ◌||◌, ◌∷◌, List, ℕ, map, MatchOption, true};
ghost use Rattle.std.specs.List.{position, list_all};
ghost use Rattle.std.specs.Str.{bytes_eq};
ghost use Rattle.name_index.specs.Names.{Indexes};
ghost use Rattle.base_lists.specs.Spans.{text_at as text_of_span};
ghost use Rattle.idl_profile.specs.Judged.{enum_default as enum_default_of, member_number};
ghost use Rattle.idl_fields.specs.View.{types_in, entries_in, word_type, named_in, judged_start, member_of};
ghost use Rattle.idl_fields.specs.Nodes.{node_type, node_stands};
ghost use Rattle.idl_fields.specs.Indexed.{IsIndexed, IndexesMembers};

use crate::draft::{Default, DraftNamed, Entry, Member, Start, TypeNode, TypeWord};
use crate::nodes::TypeNodes;
use crate::sizes::Size;
use base_lists::{Span, text_at};
use idl_grammar::Fault;
use idl_profile::BaseType;
use name_index::NameIndex;

/// The names that stand for types, with their index, the enums and structs in order, and the types that they are made of.
#[derive(Debug, Drop)]
pub struct Scope {
    pub entries: Vec<Entry>,
    pub names: NameIndex,
    pub named: Vec<DraftNamed>,
    /// The names of the members of each enum; of a struct there are none.
    pub members: Vec<NameIndex>,
    /// The measures of each enum and struct.
    pub sizes: Vec<Size>,
    pub types: TypeNodes,
    /// The measures of each of the types.
    pub type_sizes: Vec<Size>,
}

impl Scope {
    /// The type that a word stands for; beyond the names a bool.
    pub fn type_of(&self, word: TypeWord) -> TypeNode
        ensures means { (text : List ℕ) → node_type (types_in self.now.types) result ≡ word_type (entries_in text self.now) word }
        ensures stands { (types named : ℕ) → list_all (λ e. node_stands types named e.ty) self.now.entries.items ≡ true → node_stands types named result ≡ true }
    {
        match word {
            TypeWord::Base(s) => TypeNode::Base(s),
            TypeWord::Name(place) => match self.entries.get(place as usize) {
                Some(entry) => entry.ty,
                None => TypeNode::Base(BaseType::Flag),
            },
        }
    }
}

/// What a word has behind the name and a dot.
fn after_dot<'a>(name: &str, w: &'a str) -> Option<&'a str>
    ensures { MatchOption result ((rest : List ℕ) → w.now ≢ name.now ++ 46 ∷ rest) (λ rest. w.now ≡ name.now ++ 46 ∷ rest.now) }
{
    w.strip_prefix(name)?.strip_prefix('.')
}

/// The place of the first name that the word has behind the enum's name and a dot.
fn dotted_place(names: &NameIndex, name: &str, w: &str) -> Option<u32>
    ensures { (stood : List (List ℕ)) → Indexes names.now stood → result ≡ position (λ n. bytes_eq (name.now ++ 46 ∷ n) w.now) stood }
{
    names.place_of(after_dot(name, w)?)
}

/// The place of the first name that is the word, alone or behind the enum's name and a dot.
fn member_place(names: &NameIndex, name: &str, w: &str) -> Option<u32>
    ensures { (stood : List (List ℕ)) → Indexes names.now stood → result ≡ position (λ n. bytes_eq n w.now || bytes_eq (name.now ++ 46 ∷ n) w.now) stood }
{
    match (names.place_of(w), dotted_place(names, name, w)) {
        (Some(alone), Some(dotted)) => Some(alone.min(dotted)),
        (Some(alone), None) => Some(alone),
        (None, dotted) => dotted,
    }
}

/// The number of the first member that the word means.
fn member_default(
    text: &str,
    name: Span,
    members: &[Member],
    names: &NameIndex,
    w: &str,
) -> Result<Start, Fault>
    requires { IndexesMembers text.now names.now members.now }
    ensures { judged_start text.now result ≡ member_number (text_of_span text.now name) (map (member_of text.now) members.now) w.now }
{
    let Some(place) = member_place(names, text_at(text, name), w) else {
        return Err(Fault::BadDefault);
    };
    let Some(member) = members.get(place as usize) else {
        return Err(Fault::BadDefault);
    };
    Ok(Start::Complete(Default::Int(member.number)))
}

/// The number of a member of this enum, written with or without the enum's name.
pub fn enum_default(text: &str, scope: &Scope, n: u32, w: &str) -> Result<Start, Fault>
    requires { IsIndexed text.now scope.now }
    ensures { judged_start text.now result ≡ enum_default_of (named_in text.now scope.now) n w.now }
{
    let Some(DraftNamed::Enum(name, members)) = scope.named.get(n as usize) else {
        return Err(Fault::BadDefault);
    };
    let names = &scope.members[n as usize];
    member_default(text, *name, members, names, w)
}
